// Plays the schedule on standard input, and prints what the board answers.
#![tactic(auto)]

use exam::play_schedule;
use std::io::Read;

// What follows is not read.
const LIMIT: u64 = 32_768;

// `fields` differs only in the function that it calls: six lines around the runtime, and a function for both would be public and promise nothing.
fn main(rt: HostRuntime) -> anyhow::Result<()> {
    let mut bytes = Vec::new(rt.alloc());
    rt.stdin().take(LIMIT).read_to_end(&mut bytes)?;
    let mut text = String::new(rt.alloc());
    play_schedule(rt.alloc(), bytes.as_slice(), &mut text)?;
    rt.print(text)?;
    Ok(())
}
