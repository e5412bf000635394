//! Seals a hall of zig-zag places, makes reports and asks questions in it, as many as the arguments say, and prints a sum of
//! the answers: `seal PLACES SIDE`, `report N`, `ask N`, `roles N`, or `all N`. bench/run times it beside plain Rust.
#![tactic(auto)]

mod dice;
mod hall;
mod rounds;

use anyhow::{Context, anyhow};
use dice::Dice;
use drawn::outline::Outline;
use guard::guard::Guard;
use hall::{hall_words, policy_words};
use listed::listed::Listed;
use rounds::{ask, enabled_all, report, roles, sign_in, sum_of};
use std::env;

/// The guard of a hall with so many places on a floor of so many points a side, its policy sealed.
fn sealed(rt: &HostRuntime, places: u32, side: u32) -> anyhow::Result<Guard<Listed<Outline>>> {
    let heap = rt.alloc();
    let words = hall_words(heap, places, side)?;
    let (plan, answer) = Listed::<Outline>::from_words(heap, &words)?;
    answer.map_err(|_| anyhow!("the hall is refused"))?;
    let mut guard = Guard::new(plan, heap)?;
    let policy = policy_words(heap, places)?;
    guard
        .seal(&policy)
        .map_err(|_| anyhow!("the policy is not sealed"))?;
    Ok(guard)
}

/// Seals, and sums up what the sealed tables answer.
fn seal(rt: &HostRuntime, places: u32, side: u32) -> anyhow::Result<()> {
    let mut guard = sealed(rt, places, side)?;
    let sum = enabled_all(&mut guard, side);
    println!(rt; "sealed {places} {side} sum {sum}")?;
    Ok(())
}

/// Makes so many rounds, in the hall of 64 places on 256 points a side.
fn play<F: FnMut(&mut Guard<Listed<Outline>>, &mut Dice) -> u64>(
    rt: &HostRuntime,
    name: &str,
    count: u32,
    round: F,
) -> anyhow::Result<()>
    requires { F.IsAlwaysCallable round }
{
    let mut guard = sealed(rt, 64, 256)?;
    let signed = sign_in(&mut guard);
    let sum = sum_of(&mut guard, count, round);
    println!(rt; "{name} {count} active {signed} sum {sum}")?;
    Ok(())
}

/// Everything, with so many rounds of each kind.
fn all(rt: &HostRuntime, count: u32) -> anyhow::Result<()> {
    seal(rt, 64, 256)?;
    play(rt, "report", count, report)?;
    play(rt, "ask", count, ask)?;
    play(rt, "roles", count, roles)
}

/// The number that an argument says.
fn number(argument: Option<String>) -> anyhow::Result<u32> {
    let text = argument.context("a number is missing")?;
    Ok(text.as_str().parse::<u32>()?)
}

fn run(rt: &HostRuntime) -> anyhow::Result<()> {
    let mut args = env::args(rt)?;
    let _program = args.next();
    let kind = args
        .next()
        .context("seal PLACES SIDE, report N, ask N, roles N or all N")?;
    let count = number(args.next())?;
    match kind.as_str() {
        "seal" => {
            let side = number(args.next())?;
            seal(rt, count, side)
        }
        "all" => all(rt, count),
        "report" => play(rt, "report", count, report),
        "ask" => play(rt, "ask", count, ask),
        "roles" => play(rt, "roles", count, roles),
        _ => Err(anyhow!("no such kind of round")),
    }
}

fn main(rt: HostRuntime) -> anyhow::Result<()> {
    run(&rt)
}
