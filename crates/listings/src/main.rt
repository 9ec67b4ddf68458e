// Lists every schedule of a table: each line is printed, and behind a schedule what is listed of it.
// A schedule is written in hexadecimal with capital digits, with blanks between them and a comment behind `#`.
#![tactic(auto)]

ghost use Rattle.std.specs.Prelude.{◌≡◌, not, true, false, ◌&&◌, length, IfOk, MatchOption, ◌==◌, slice_index};
ghost use Rattle.std.specs.List.{list_all, prefix_len};
ghost use Rattle.hexadecimal.specs.Bytes.{held_by};
ghost use Rattle.listings.specs.Lines.{plain, before_comment, bytes_of};

use anyhow::bail;
use listing::list;
use std::alloc::{AllocError, Global};

// An empty line and one that begins with `#` are no schedules. A blank before `#` makes the empty schedule.
fn is_schedule(line: &[u8]) -> bool
    ensures { result ≡ (not (length line.now == 0) && not (slice_index line.now 0 == 35)) }
{
    line.first().is_some_and(|byte| *byte != b'#')
}

fn is_plain(byte: u8) -> bool
    ensures { result ≡ plain byte }
{
    matches!(byte, b'0'..=b'9' | b'A'..=b'F' | b' ')
}

// How many plain bytes stand at the front.
fn plain_len(line: &[u8]) -> usize
    ensures { result ≡ prefix_len plain line.now }
{
    line.iter().take_while(|byte| is_plain(**byte)).count()
}

// What stands before the comment, unless it is something else than capital digits and blanks: the table takes less than the
// crate reads.
fn front(line: &[u8]) -> Option<&[u8]>
    ensures { MatchOption result (list_all plain (before_comment line.now) ≡ false) (λ text. (text.now ≡ before_comment line.now) × (list_all plain text.now ≡ true)) }
{
    let end = plain_len(line);
    if end < line.len() && line[end] != b'#' {
        return None;
    }
    Some(&line[..end])
}

// The bytes of the schedule on the line, unless something else stands there.
fn bytes_of(heap: Global, line: &[u8]) -> Result<Option<Vec<u8>>, AllocError>
    ensures { IfOk result (λ answer. held_by answer ≡ bytes_of line.now) }
{
    let Some(text) = front(line) else {
        return Ok(None);
    };
    hexadecimal::bytes_of(heap, text)
}

fn main(rt: HostRuntime) -> anyhow::Result<()> {
    for line in rt.lines(rt.alloc()) {
        let line = line?;
        println!(rt; "{line}")?;
        if is_schedule(line.as_bytes()) {
            let Some(bytes) = bytes_of(rt.alloc(), line.as_bytes())? else {
                bail!("a line is neither a comment nor hexadecimal");
            };
            let mut text = String::new(rt.alloc());
            list(rt.alloc(), bytes.as_slice(), &mut text)?;
            rt.print(text)?;
        }
    }
    Ok(())
}
