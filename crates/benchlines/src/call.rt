//! The call that a line makes.

ghost use Rattle.std.specs.Prelude.{◌≡◌};
ghost use Rattle.benchlines.specs.Lines.{line_call};

use crate::arguments::arguments;
use calls::call::{Call, Event};
use point::Point;

/// A line has at most so many bytes.
pub const LONGEST_LINE: usize = 32;

/// An argument has at most so many digits.
pub const MOST_DIGITS: usize = 3;

/// The call that a line makes; none where the line is bad.
pub fn call_of(line: &[u8]) -> Option<Call>
    ensures { result ≡ line_call line.now }
{
    if line.len() > LONGEST_LINE {
        return None;
    }
    let (badge, event) = match char::from(*line.first()?) {
        'R' => {
            let [badge, x, y] = arguments::<3>(line, 1, MOST_DIGITS)?;
            (badge, Event::Report { at: Point { x, y } })
        }
        'M' => {
            let [badge] = arguments::<1>(line, 1, MOST_DIGITS)?;
            (badge, Event::Miss)
        }
        'O' => {
            let [badge, session] = arguments::<2>(line, 1, MOST_DIGITS)?;
            (badge, Event::Open { session })
        }
        'C' => {
            let [badge, session] = arguments::<2>(line, 1, MOST_DIGITS)?;
            (badge, Event::Close { session })
        }
        'A' => {
            let [badge, session, role] = arguments::<3>(line, 1, MOST_DIGITS)?;
            (badge, Event::Activate { session, role })
        }
        'D' => {
            let [badge, session, role] = arguments::<3>(line, 1, MOST_DIGITS)?;
            (badge, Event::Drop { session, role })
        }
        'Q' => {
            let [badge, session, operation, object] = arguments::<4>(line, 1, MOST_DIGITS)?;
            (
                badge,
                Event::Ask {
                    session,
                    operation,
                    object,
                },
            )
        }
        _ => return None,
    };
    Some(Call { badge, event })
}
