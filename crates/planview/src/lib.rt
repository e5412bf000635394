//! A plan's places in numbers and pictures: how many points each covers, and which.

#![tactic(auto)]

pub mod picture;

ghost use Rattle.std.specs.Prelude.{◌≡◌, ℕ, ◌≤◌};
ghost use Rattle.planview.specs.Views.{points_of_row as points_of_row_spec, points_of};

use plan::Plan;
use point::Point;

/// How many points of row `y` a place covers.
// A plan and the number of a place stay two parameters, as in the questions that a plan answers.
fn points_of_row<P: Plan>(plan: &P, place: usize, y: u16) -> u32
    ensures value { result ≡ points_of_row_spec (P.hall plan.now) place y }
    ensures most { result ≤ 256 }
{
    let mut points = 0u32;
    // a loop: `filter` and `count` take nearly twice as long on cells
    for x in 0..plan.width() {
        if plan.covers(place, Point { x, y }) {
            points += 1;
        }
    }
    points
}

/// How many points a place covers.
pub fn points<P: Plan>(plan: &P, place: usize) -> u32
    ensures { result ≡ points_of (P.hall plan.now) place }
{
    (0..plan.height())
        .map(|y| points_of_row(plan, place, y))
        .sum()
}
