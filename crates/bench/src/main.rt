//! Puts the calls on standard input to a guard over the hall of eight by eight, and prints what each gives.
#![tactic(auto)]

use anyhow::anyhow;
use benchlines::input::LONGEST_INPUT;
use benchrun::session::session;
use std::env;
use std::io::Read;
use std::process::ExitCode;

/// What `help` prints.
const HELP: &str = "\
usage: bench [help] < CALLS

Puts calls to a guard, one for each line, and prints a line for each. The hall of eight by
eight and its policy are built in. The numbers have one to three decimal digits.

  R badge x y                         the badge was heard at (x,y)
  M badge                             a sweep did not hear the badge
  O badge session                     opens a session, 0 to 3
  C badge session                     closes it
  A badge session role                makes a role active in it
  D badge session role                makes a role inactive in it
  Q badge session operation object    asks for a right

Printed: `ok`, `grant` and the role that grants, `no` and the number of the refusal, `bad` for
a line of another form. An input of more than 32768 bytes prints `long` and nothing else.
";

/// Answers what stands on standard input. One byte more than is answered shows that it is too long; there is no fault but
/// want of memory.
fn answer_input(rt: &HostRuntime) -> anyhow::Result<()> {
    let mut input = Vec::new(rt.alloc());
    rt.stdin()
        .take(LONGEST_INPUT as u64 + 1)
        .read_to_end(&mut input)?;
    let text = session(&input, rt.alloc()).map_err(|_| anyhow!("no memory"))?;
    print!(rt; "{text}")?;
    Ok(())
}

/// Does what the one argument says, if there is one.
fn run(rt: &HostRuntime) -> anyhow::Result<()> {
    let mut args = env::args(rt)?;
    let _program = args.next();
    let Some(word) = args.next() else {
        return answer_input(rt);
    };
    let alone = args.next().is_none();
    print!(rt; "{HELP}")?;
    if alone && word.as_str() == "help" {
        Ok(())
    } else {
        Err(anyhow!("no such argument"))
    }
}

// What went wrong is said by the status alone, apart from what was printed.
fn main(rt: HostRuntime) -> ExitCode {
    match run(&rt) {
        Ok(()) => ExitCode::SUCCESS,
        Err(_) => ExitCode::FAILURE,
    }
}
