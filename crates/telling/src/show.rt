//! The places of a plan, as they are printed.

use plan::Plan;
use planlines::{map_line, place_line};
use planview::picture::Row;
use std::io::Write;

/// Prints a picture of each place.
fn maps<P: Plan>(rt: &HostRuntime, plan: &P) -> anyhow::Result<()> {
    let mut out = rt.stdout();
    for place in 0..plan.count() {
        rt.println(map_line(rt.alloc(), place)?)?;
        for y in 0..plan.height() {
            let row = Row::of_place(plan, place, y);
            out.write_all(row.marks())?;
            out.write_all(b"\n")?;
        }
    }
    Ok(())
}

/// Prints a line for each place, and a picture of each where they are asked for.
pub fn places<P: Plan>(rt: &HostRuntime, plan: &P, map: bool) -> anyhow::Result<()> {
    for place in 0..plan.count() {
        rt.println(place_line(rt.alloc(), plan, place)?)?;
    }
    if map {
        maps(rt, plan)?;
    }
    Ok(())
}
