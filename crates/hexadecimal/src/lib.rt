// Hexadecimal text: digits with blanks between them, and comments from `#` to the end of the line.
#![tactic(auto)]

ghost use Rattle.std.specs.Prelude.{◌≡◌, ◌<◌, ◌≤◌, true, false, ◌==◌, Some, length, IfOk, IfSome};
ghost use Rattle.std.specs.List.{position};
ghost use Rattle.hexadecimal.specs.Bytes.{blank, stripped_in, digit_of, byte_of, bytes_of, held_by};
ghost use Rattle.hexadecimal.specs.Laws.{ReadsBack, SkipsComments};

use std::alloc::{AllocError, Global};

// The value of each byte as a digit, or 255 where it is none.
const DIGITS: [u8; 256] = [
    255, 255, 255, 255, 255, 255, 255, 255, 255, 255, 255, 255, 255, 255, 255, 255, 255, 255, 255,
    255, 255, 255, 255, 255, 255, 255, 255, 255, 255, 255, 255, 255, 255, 255, 255, 255, 255, 255,
    255, 255, 255, 255, 255, 255, 255, 255, 255, 255, 0, 1, 2, 3, 4, 5, 6, 7, 8, 9, 255, 255, 255,
    255, 255, 255, 255, 10, 11, 12, 13, 14, 15, 255, 255, 255, 255, 255, 255, 255, 255, 255, 255,
    255, 255, 255, 255, 255, 255, 255, 255, 255, 255, 255, 255, 255, 255, 255, 255, 10, 11, 12, 13,
    14, 15, 255, 255, 255, 255, 255, 255, 255, 255, 255, 255, 255, 255, 255, 255, 255, 255, 255,
    255, 255, 255, 255, 255, 255, 255, 255, 255, 255, 255, 255, 255, 255, 255, 255, 255, 255, 255,
    255, 255, 255, 255, 255, 255, 255, 255, 255, 255, 255, 255, 255, 255, 255, 255, 255, 255, 255,
    255, 255, 255, 255, 255, 255, 255, 255, 255, 255, 255, 255, 255, 255, 255, 255, 255, 255, 255,
    255, 255, 255, 255, 255, 255, 255, 255, 255, 255, 255, 255, 255, 255, 255, 255, 255, 255, 255,
    255, 255, 255, 255, 255, 255, 255, 255, 255, 255, 255, 255, 255, 255, 255, 255, 255, 255, 255,
    255, 255, 255, 255, 255, 255, 255, 255, 255, 255, 255, 255, 255, 255, 255, 255, 255, 255, 255,
    255, 255, 255, 255, 255, 255, 255, 255, 255, 255, 255, 255, 255, 255, 255, 255, 255, 255, 255,
    255, 255, 255,
];

// By a table, for speed: most of a text is digits.
fn digit_of(byte: u8) -> Option<u8>
    ensures value { result ≡ digit_of byte }
    ensures few { IfSome result (λ digit. digit < 16) }
{
    let value = DIGITS[usize::from(byte)];
    if value < 16 { Some(value) } else { None }
}

// The byte of two digits.
fn byte_of(high: u8, low: u8) -> u8
    requires high { high < 16 }
    requires low { low < 16 }
    ensures { byte_of (Some high) (Some low) ≡ Some result }
{
    high * 16 + low
}

fn is_blank(byte: u8) -> bool
    ensures { result ≡ blank byte }
{
    matches!(byte, b' ' | b'\t' | b'\n' | b'\r')
}

// Where the first newline stands.
fn newline(text: &[u8]) -> Option<usize>
    ensures { result ≡ position (λ c. c == 10) text.now }
{
    text.iter().position(|byte| *byte == b'\n')
}

// What stands behind a comment and the newline that ends it.
fn behind_comment(text: &[u8]) -> &[u8]
    ensures kept { stripped_in true text.now ≡ stripped_in false result.now }
    ensures shorter { length result.now ≤ length text.now }
{
    match newline(text) {
        Some(end) => &text[end + 1..],
        None => &[],
    }
}

// The bytes that the text writes, unless something else stands there or the number of digits is odd.
#[tactic(auto, using(crate::proofs::Laws::reads_back, crate::proofs::Laws::skips_comments))]
pub fn bytes_of(heap: Global, text: &[u8]) -> Result<Option<Vec<u8>>, AllocError>
    ensures reads { IfOk result (λ answer. held_by answer ≡ bytes_of text.now) }
    ensures reads_back { ReadsBack }
    ensures skips_comments { SkipsComments }
{
    let mut bytes = Vec::new(heap);
    // The first digit of a byte whose second is still to come.
    let mut high = None;
    let mut left = text;
    while let Some((byte, rest)) = left.split_first() {
        left = rest;
        if let Some(digit) = digit_of(*byte) {
            high = match high {
                None => Some(digit),
                Some(front) => {
                    bytes.push(byte_of(front, digit))?;
                    None
                }
            };
        } else if *byte == b'#' {
            left = behind_comment(rest);
        } else if !is_blank(*byte) {
            return Ok(None);
        }
    }
    Ok(if high.is_none() { Some(bytes) } else { None })
}
