//! Asks every point of a 256 by 256 floor of 64 drawn places of 16 corners, and prints how often a place covers a point.
#![tactic(auto)]

use anyhow::anyhow;
use drawn::outline::Outline;
use listed::listed::Listed;
use listed::shape::Shape;
use plan::Plan;
use point::Point;
use std::alloc::{AllocError, Global};

/// The words of the floor and its places.
// Another hall than that of guardbench: a place has other corners, of another formula.
fn hall_words(heap: Global) -> Result<Vec<u32>, AllocError> {
    let mut words = Vec::new(heap);
    words.push(0x1002_0100u32)?;
    for n in 0..64u32 {
        words.push(0x2000_0100 | (n % 16))?;
        for k in 0..16u32 {
            let x = (k * 61 + n * 37) % 256;
            let y = (k * 97 + n * 53) % 256;
            words.push(0x3000_0000 | (y << 8) | x)?;
        }
    }
    Ok(words)
}

/// How often a place covers a point.
fn covered<P: Plan>(plan: &P) -> u64 {
    let mut all = 0u64;
    for y in 0..plan.height() {
        for x in 0..plan.width() {
            // a loop: with `filter` and `count` the measured time is a tenth longer
            for place in 0..plan.count() {
                if plan.covers(place, Point { x, y }) {
                    all = all.wrapping_add(1);
                }
            }
        }
    }
    all
}

fn run(rt: &HostRuntime) -> anyhow::Result<()> {
    let heap = rt.alloc();
    let words = hall_words(heap)?;
    let (plan, answer) = Listed::<Outline>::from_words(heap, &words)?;
    answer.map_err(|_| anyhow!("the hall is refused"))?;
    let all = covered(&plan);
    println!(rt; "covered {all}")?;
    Ok(())
}

fn main(rt: HostRuntime) -> anyhow::Result<()> {
    run(&rt)
}
