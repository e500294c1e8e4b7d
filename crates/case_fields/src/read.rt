//! Reading a case.
ghost use Rattle.std.specs.Prelude.{◌≡◌, ◌<◌, ◌⊎◌, ℕ, List, map, length, MatchResult};
ghost use Rattle.fields.specs.Faults.{First};
ghost use Rattle.fields.specs.Files.{IsFile, FirstFault, Told, checks};
ghost use Rattle.fields.specs.declared.fault.FieldFault.{FieldFault};
ghost use Rattle.fields.specs.declared.fault.ReadError.TheVariants.{Memory, Field};
ghost use Rattle.case_fields.specs.Cases.{case_format};
ghost use Rattle.case_fields.specs.Entries.{Entry};
ghost use Rattle.case_fields.specs.Meant.{meant};
ghost use Rattle.case_fields.specs.Read.{Next};
ghost use Rattle.case_fields.specs.Summaries.{SumsUp};
ghost use Rattle.fields.specs.Walks.{IsCut};

use crate::kind::RecordKind;
use crate::record::CaseRecord;
use crate::summary::Summary;
use fields::fault::{FaultKind, FieldFault, ReadError};
use fields::head;
use fields::walk::Fields;
use std::alloc::Global;

/// The record of a field, after those summed up, or the fault of what stands in its place.
fn next_record<'a>(
    before: &Summary,
    field: Result<head::Field<'a>, FaultKind>,
) -> Result<CaseRecord<'a>, FaultKind>
    ensures { (es : List Entry) (bs rest : List ℕ) → SumsUp before.now es → IsCut bs field.entry rest → MatchResult result
        (λ r. Next es bs (meant r) rest)
        (λ k. First (checks case_format es bs) k) }
{
    let field = field?;
    let kind = RecordKind::try_from(field.tag)?;
    if !before.lets_follow(kind) {
        return Err(FaultKind::TagOrder);
    }
    let record = CaseRecord::read(kind, field.body)?;
    if !record.is_in_range() {
        return Err(FaultKind::OutOfRange);
    }
    if !before.holds_references(record) {
        return Err(FaultKind::BadReference);
    }
    Ok(record)
}

/// The records of the input, one field after the other.
fn read_records<'a>(heap: Global, input: &'a [u8]) -> Result<Vec<CaseRecord<'a>>, ReadError>
    ensures { MatchResult result (λ v. IsFile case_format input.now (map meant v.items)) (Told case_format input.now) }
{
    let mut records = Vec::new(heap);
    let mut before = Summary::new(heap);
    for (offset, field) in Fields::of(input) {
        let record = match next_record(&before, field) {
            Ok(record) => record,
            Err(kind) => return Err(ReadError::Field(FieldFault { kind, offset })),
        };
        before.note(record)?;
        records.push(record)?;
    }
    if !before.is_complete() {
        return Err(ReadError::Field(FieldFault {
            kind: FaultKind::TagOrder,
            offset: input.len(),
        }));
    }
    Ok(records)
}

/// The records of a case, or its first fault.
/// Accepted exactly when the input is the encoding of well formed records, and then with these records.
pub fn read_case<'a>(heap: Global, input: &'a [u8]) -> Result<Vec<CaseRecord<'a>>, ReadError>
    ensures reads { MatchResult result (λ v. IsFile case_format input.now (map meant v.items)) (Told case_format input.now) }
    ensures accepts { (es : List Entry) → IsFile case_format input.now es →
        MatchResult result (λ v. map meant v.items ≡ es) (λ e. e ≡ Memory) }
    ensures refuses { (fault : FieldFault) → FirstFault case_format input.now fault →
        MatchResult result (λ _. ⊥) (λ e. (e ≡ Memory) ⊎ (e ≡ Field fault)) }
{
    read_records(heap, input)
}
