//! The printed line of an answer.

ghost use Rattle.std.specs.Prelude.{◌≡◌, IfOk, string_bytes};
ghost use Rattle.benchlines.specs.Answers.{answer_text};

use calls::call::{Answer, Reply};
use std::alloc::{AllocError, Global};

/// The line of an answer, without its line feed.
// A function and no Display: an answer is a Result, which prints in std's way.
pub fn answer_line(heap: Global, answer: Answer) -> Result<String, AllocError>
    ensures { IfOk result (λ s. string_bytes s ≡ answer_text answer) }
{
    match answer {
        Ok(Reply::Done) => String::from_str(heap, "ok"),
        Ok(Reply::Place(Some(place))) => format!(in heap; "place {place}"),
        Ok(Reply::Place(None)) => String::from_str(heap, "none"),
        Ok(Reply::Verdict(true)) => String::from_str(heap, "yes"),
        Ok(Reply::Verdict(false)) => String::from_str(heap, "not"),
        Ok(Reply::RoleSet(roles)) => format!(in heap; "roles {:016x}", roles.word()),
        Ok(Reply::Granted(role)) => format!(in heap; "grant {role}"),
        Err(refusal) => format!(in heap; "no {}", refusal.number()),
    }
}
