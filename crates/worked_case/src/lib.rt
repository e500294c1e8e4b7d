//! What the rules say of the worked case.
#![tactic(auto)]

ghost use Rattle.worked_case.specs.Worked.{WorkedLists};
ghost use Rattle.worked_case.specs.Outcomes.{WorkedOutcomes};

/// The worked case reads as its records, means the columns and rows that are written out, and is listed in 1,066 bytes.
pub fn worked_case_lists() -> u8
    ensures { WorkedLists }
{
    0
}

/// The same, with the verdicts on certificates for it, what stands after them, and the verdicts on the empty book.
pub fn worked_case_outcomes() -> u8
    ensures { WorkedOutcomes }
{
    0
}
