// Plays the examples that `index.txt` names: what the board prints of NAME.hex has to be what NAME.out holds.
#![tactic(auto)]

use anyhow::{bail, ensure};
use exam::play_schedule;
use hexadecimal::bytes_of;
use std::fs;

// What the board prints of the example's schedule.
fn played(rt: &HostRuntime, name: &str) -> anyhow::Result<String> {
    let source = fs::read(rt, format!(in rt.alloc(); "{name}.hex")?)?;
    let Some(bytes) = bytes_of(rt.alloc(), source.as_slice())? else {
        bail!("{name}.hex is not hexadecimal");
    };
    let mut text = String::new(rt.alloc());
    play_schedule(rt.alloc(), bytes.as_slice(), &mut text)?;
    Ok(text)
}

fn compare(rt: &HostRuntime, name: &str) -> anyhow::Result<()> {
    let expected = fs::read_to_string(rt, format!(in rt.alloc(); "{name}.out")?)?;
    ensure!(played(rt, name)? == expected, "{name} is not as expected");
    println!(rt; "{name} as expected")?;
    Ok(())
}

fn main(rt: HostRuntime) -> anyhow::Result<()> {
    let index = fs::read_to_string(&rt, "index.txt")?;
    for name in index.lines() {
        compare(&rt, name)?;
    }
    Ok(())
}
