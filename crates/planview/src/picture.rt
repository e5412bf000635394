//! A place as a picture, row by row.

ghost use Rattle.std.specs.Prelude.{◌≡◌, ℕ, ◌≤◌, take};
ghost use Rattle.planview.specs.Views.{mark_at, picture_row};

use plan::Plan;
use point::Point;

/// One row: `#` for each point that is covered, `.` for each other one.
// Bytes and no Display: they are written as they are, 256 at a time.
// An array and a width, no ArrayVec: a row can be copied, and an ArrayVec cannot.
#[derive(Clone, Copy)]
pub struct Row {
    marks: [u8; 256],
    width: usize,
    ghost within: { width ≤ 256 },
}

fn mark<P: Plan>(plan: &P, place: usize, at: Point) -> u8
    ensures { result ≡ mark_at (P.hall plan.now) place at.y at.x }
{
    if plan.covers(place, at) { b'#' } else { b'.' }
}

impl Row {
    /// Row `y` of a place.
    pub fn of_place<P: Plan>(plan: &P, place: usize, y: u16) -> Row
        ensures { take result.width result.marks ≡ picture_row (P.hall plan.now) place y }
    {
        let mut marks = [b'.'; 256];
        let width = plan.width();
        for x in 0..width {
            marks[x as usize] = mark(plan, place, Point { x, y });
        }
        Row {
            marks,
            width: width as usize,
        }
    }

    /// The marks from side to side.
    pub fn marks(&self) -> &[u8]
        ensures { result.now ≡ take self.now.width self.now.marks }
    {
        &self.marks[..self.width]
    }
}
