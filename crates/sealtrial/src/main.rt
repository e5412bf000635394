//! Seals the hall of eight by eight again and again, which plancheck never does, and prints what each sealing gives.
#![tactic(auto)]

use drawn::outline::Outline;
use listed::listed::Listed;
use plan::Plan;
use planlines::fault_line;
use site::site::Site;

/// Seals the words, and prints what came of it and how many badges and roles there are then.
fn seal<P: Plan>(
    rt: &HostRuntime,
    site: &mut Site<P>,
    name: &str,
    words: &[u32],
) -> anyhow::Result<()> {
    println!(rt; "{name}")?;
    match site.seal(words) {
        Ok(()) => rt.println("seal ok")?,
        Err(fault) => rt.println(fault_line(rt.alloc(), "seal", fault.told())?)?,
    }
    let badges = site.badges();
    let roles = site.role_count();
    println!(rt; "badges {badges} roles {roles}")?;
    Ok(())
}

/// Seals several lists of words over one plan, one after another.
fn seal_all<P: Plan>(rt: &HostRuntime, site: &mut Site<P>) -> anyhow::Result<()> {
    let fits = [
        0x7000_0002u32,
        0x8000_0210,
        0x8000_0021,
        0x9000_0020,
        0xA000_0000,
        0xA000_0041,
        0xA000_0042,
    ];
    let misplaced = [0x7000_0002u32, 0x8000_0210, 0xA000_003F];
    let lacking = [0x7000_0002u32, 0xA000_0000];
    let lists: [(&str, &[u32]); 7] = [
        ("no words", &[]),
        ("a role without its schema", &lacking),
        ("a role without its place", &misplaced),
        ("a policy that fits", &fits),
        ("the same again", &fits),
        ("a role without its place", &misplaced),
        ("no words", &[]),
    ];
    for (name, words) in lists {
        seal(rt, site, name, words)?;
    }
    Ok(())
}

fn run(rt: &HostRuntime) -> anyhow::Result<()> {
    // these words, and those that fit, stand in benchrun too, but a program that only seals is to build without the crates below that one
    let hall = [
        0x1000_1008u32,
        0x2000_0040,
        0x3000_0000,
        0x3000_0007,
        0x3000_0707,
        0x3000_0700,
        0x2000_0041,
        0x3000_0000,
        0x3000_0003,
        0x3000_0703,
        0x3000_0700,
        0x2000_0041,
        0x3000_0004,
        0x3000_0007,
        0x3000_0707,
        0x3000_0704,
        0x2000_0032,
        0x3000_0101,
        0x3000_0103,
        0x3000_0301,
    ];
    let (plan, answer) = Listed::<Outline>::from_words(rt.alloc(), &hall)?;
    answer?;
    let mut site = Site::new(plan, rt.alloc())?;
    seal_all(rt, &mut site)
}

fn main(rt: HostRuntime) -> anyhow::Result<()> {
    run(&rt)
}
