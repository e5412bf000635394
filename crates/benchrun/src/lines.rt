//! What is printed for the lines of an input.

ghost use Rattle.std.specs.Prelude.{◌≡◌, ℕ, List, [], ◌++◌, IfOk, string_bytes, OnOk};
ghost use Rattle.std.specs.Option.{option_map};
ghost use Rattle.policy.specs.Contents.{Content};
ghost use Rattle.sealing.specs.Ground.{ground_of};
ghost use Rattle.guard.specs.Kept.{kept_of};
ghost use Rattle.guard.specs.Stands.{Stands};
ghost use Rattle.benchlines.specs.Lines.{line_call};
ghost use Rattle.benchrun.specs.Printed.{calls_of, text_of, printed};
ghost use Rattle.benchrun.specs.Lines.{Answers, GoesOn, PrintsOn, reply_to, kept_by};

use benchlines::answer::answer_line;
use benchlines::call::call_of;
use benchlines::input::{Lines, is_long};
use calls::call::Answer;
use guard::guard::Guard;
use plan::Plan;
use std::alloc::{AllocError, Global};

/// Makes the call of a line; a bad line makes none and has no answer.
fn put<P: Plan>(guard: &mut Guard<P>, line: &[u8]) -> Option<Answer>
    ensures answers { Answers (P.Plan.hall guard.old.site.plan) guard.old guard.new (line_call line.now) result }
    ensures law { GoesOn (P.Plan.hall guard.old.site.plan) guard.old guard.new (line_call line.now) result }
{
    let call = call_of(line)?;
    Some(guard.perform(call))
}

/// What is printed for an answer, or for a bad line where there is none.
// A function and no Display: an option of a Result prints in std's way.
fn text_of(answer: Option<Answer>, heap: Global) -> Result<String, AllocError>
    ensures { IfOk result (λ s. string_bytes s ≡ text_of answer) }
{
    match answer {
        Some(told) => {
            let text = answer_line(heap, told)?;
            format!(in heap; "{text}\n")
        }
        None => String::from_str(heap, "bad\n"),
    }
}

/// Makes the call of a line, and appends what is printed for it.
pub fn answer_to<P: Plan>(
    guard: &mut Guard<P>,
    line: &[u8],
    out: &mut String,
    heap: Global,
) -> Result<(), AllocError>
    ensures text { OnOk result (string_bytes out.new ≡ string_bytes out.old ++ text_of (option_map (reply_to (P.Plan.hall guard.old.site.plan) guard.old) (line_call line.now))) }
    ensures site { guard.new.site ≡ guard.old.site }
    ensures kept { (b : ℕ) → kept_of guard.new b ≡ kept_by (P.Plan.hall guard.old.site.plan) guard.old (line_call line.now) b }
    ensures law { PrintsOn (P.Plan.hall guard.old.site.plan) guard.old guard.new (line_call line.now) result (string_bytes out.old) (string_bytes out.new) }
{
    let text = text_of(put(guard, line), heap)?;
    out.push_str(text.as_str())
}

/// Makes the calls of the lines of an input, one after another, and gives what is printed; too long an input makes none.
pub fn run_text<P: Plan>(
    guard: &mut Guard<P>,
    input: &[u8],
    heap: Global,
) -> Result<String, AllocError>
    ensures text { IfOk result (λ s. (ws : List ℕ) (c : Content) → Stands (P.Plan.hall guard.old.site.plan) ws c [] guard.old → string_bytes s ≡ printed (ground_of (P.Plan.hall guard.old.site.plan) c) input.now) }
    ensures after { OnOk result ((ws : List ℕ) (c : Content) → Stands (P.Plan.hall guard.old.site.plan) ws c [] guard.old → Stands (P.Plan.hall guard.old.site.plan) ws c (calls_of input.now) guard.new) }
{
    if is_long(input) {
        return String::from_str(heap, "long\n");
    }
    let mut out = String::new(heap);
    for line in Lines::new(input) {
        answer_to(guard, line, &mut out, heap)?;
    }
    Ok(out)
}
