//! The text of what becomes of an input.
ghost use Rattle.std.specs.Prelude.{◌≡◌, IfOk, string_bytes};
ghost use Rattle.verdict_text.specs.Outputs.{outcome_text, Output};

use crate::text::{Lines, StandingLine};
use std::alloc::{AllocError, Global};
use std::fmt;
use verdicts::outcome::{Outcome, outcome_of};

/// What becomes of an input, in lines: one for each certificate and one for what stands, or the one line of a refusal.
#[derive(Clone, Copy, Drop)]
pub struct Report<'a>(pub &'a Outcome<'a>);

impl fmt::Display for Report<'_> {
    ghost use Rattle.std.specs.Prelude.{Some};
    ghost use Rattle.verdict_text.specs.Outputs.{outcome_text};

    ghost output = { λ r. Some (outcome_text r.0.now) };

    fn fmt<W: fmt::Write>(&self, f: &mut fmt::Formatter<W>) -> fmt::Result {
        match self.0 {
            Outcome::InputRefused => writeln!(f, "input refused"),
            Outcome::CaseRefused(fault) => {
                let number = fault.number();
                let place = fault.place();
                writeln!(f, "case refused {number} {place}")
            }
            Outcome::Judged(judgement) => {
                let lines = Lines {
                    calls: judgement.calls.as_slice(),
                    answers: judgement.run.answers.as_slice(),
                };
                let standing = StandingLine(judgement.run.standing);
                write!(f, "{lines}{standing}")
            }
        }
    }
}

/// The text of what becomes of an input.
pub fn text_of(heap: Global, outcome: &Outcome<'_>) -> Result<String, AllocError>
    ensures { IfOk result (λ s. string_bytes s ≡ outcome_text outcome.now) }
{
    Report(outcome).to_string(heap)
}

/// What the verdict program writes for an input; an error is want of memory.
pub fn output_of(heap: Global, input: &[u8]) -> Result<String, AllocError>
    ensures { IfOk result (λ s. Output input.now (string_bytes s)) }
{
    let outcome = outcome_of(heap, input)?;
    text_of(heap, &outcome)
}
