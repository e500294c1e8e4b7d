//! The allowance of a case.
ghost use Rattle.std.specs.Prelude.{◌≡◌, map};
ghost use Rattle.case_fields.specs.Meant.{meant};
ghost use Rattle.clauses.specs.Clauses.{allowance_in, allowance};

use case_fields::record::CaseRecord;

/// The allowance that a record sets.
fn allowance_in(given: CaseRecord<'_>) -> Option<i32>
    ensures { result ≡ allowance_in (meant given.entry) }
{
    match given {
        CaseRecord::Period(period) => Some(period.allowance),
        _ => None,
    }
}

/// The period's allowance.
pub fn allowance_of(records: &[CaseRecord<'_>]) -> i32
    ensures { result ≡ allowance (map meant records.now) }
{
    for given in records {
        if let Some(allowance) = allowance_in(*given) {
            return allowance;
        }
    }
    0
}
