//! Checks many texts, one after another: each begins with a line `=== NAME`, and what plancheck prints for it follows its name.

#![tactic(auto)]

use bstr::ByteSlice;
use checking::sections::check;
use std::io::{Read, Write};

/// What stands before the name of a text.
const MARK: &[u8] = b"=== ";

/// Prints a text's name, what is found in it, and whether it is accepted.
fn try_text(rt: &HostRuntime, named: &[u8]) -> anyhow::Result<()> {
    let (name, text) = named.split_once_str(b"\n").unwrap_or((named, &[]));
    rt.stdout().write_all(MARK)?;
    rt.stdout().write_all(name)?;
    println!(rt; "")?;
    let accepted = check(rt, text, false)?;
    println!(rt; "accepted {accepted}")?;
    Ok(())
}

fn run(rt: &HostRuntime) -> anyhow::Result<()> {
    let mut all = Vec::new(rt.alloc());
    rt.stdin().read_to_end(&mut all)?;
    for named in all.as_slice().split_str(MARK).skip(1) {
        try_text(rt, named)?;
    }
    Ok(())
}

fn main(rt: HostRuntime) -> anyhow::Result<()> {
    run(&rt)
}
