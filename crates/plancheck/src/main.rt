//! Reads the text of a floor plan, accepts it or tells its fault, and shows what each place covers.

#![tactic(auto)]

use anyhow::anyhow;
use checking::sections::check;
use std::env;
use std::io::Read;
use std::process::ExitCode;

const HELP: &str = "usage: plancheck [map | help] < TEXT

Reads a floor plan as text, accepts it or tells its fault, and tells of each place
its number, its type and how many points of the floor it covers.

  map    draws each place too: # for a point that it covers, . for any other
  help   prints this

The text: a line `drawn` or `cells`, and after it lines of hexadecimal words, up to eight
digits each, with spaces between them. Then up to two sections of the same form that begin
with a line `zones`, and last a section `policy`. From # to the end of a line is comment.

Lines that begin with a space explain; the others have fixed forms for a script to read.
Status 0 if all is accepted, 1 if something is refused.";

/// Checks what stands on standard input.
fn check_input(rt: &HostRuntime, map: bool) -> anyhow::Result<()> {
    let mut text = Vec::new(rt.alloc());
    rt.stdin().read_to_end(&mut text)?;
    if check(rt, &text, map)? {
        Ok(())
    } else {
        Err(anyhow!("refused"))
    }
}

/// Does what the one argument says, if there is one.
fn run(rt: &HostRuntime) -> anyhow::Result<()> {
    let mut args = env::args(rt)?;
    let _program = args.next();
    let word = args.next();
    let alone = args.next().is_none();
    match word.as_ref().map(|word| word.as_str()) {
        None => check_input(rt, false),
        Some("map") if alone => check_input(rt, true),
        Some("help") if alone => {
            rt.println(HELP)?;
            Ok(())
        }
        Some(_) => {
            rt.println(HELP)?;
            Err(anyhow!("no such argument"))
        }
    }
}

// What went wrong is said by the status alone, apart from what was printed. The bench ends so too, and shares no crate for it.
fn main(rt: HostRuntime) -> ExitCode {
    match run(&rt) {
        Ok(()) => ExitCode::SUCCESS,
        Err(_) => ExitCode::FAILURE,
    }
}
