//! Reading a listing.
ghost use Rattle.std.specs.Prelude.{◌≡◌, ℕ, ◌+◌, ◌^◌, ◌<◌, ◌⊎◌, List, [], ◌∷◌, ◌++◌, map, nat_le, MatchResult};
ghost use Rattle.fields.specs.Faults.{First};
ghost use Rattle.fields.specs.Files.{checks, IsFile, FirstFault, Told};
ghost use Rattle.fields.specs.Walks.{IsCut};
ghost use Rattle.fields.specs.declared.fault.FieldFault.{FieldFault};
ghost use Rattle.fields.specs.declared.fault.ReadError.TheVariants.{Memory, Field};
ghost use Rattle.listing_fields.specs.Entries.{Entry};
ghost use Rattle.listing_fields.specs.Listings.{listing_format};
ghost use Rattle.listing_fields.specs.Meant.{meant};
ghost use Rattle.listing_fields.specs.Reading.{Reads};

use crate::column::judge_column;
use crate::record::{EntryKind, ListingRecord};
use crate::row::judge_row;
use fields::fault::{FaultKind, FieldFault, ReadError};
use fields::head;
use fields::walk::Fields;
use std::alloc::Global;

/// The fields before the next: how many columns there are, and what the last is.
#[derive(Clone, Copy)]
struct Before {
    columns: usize,
    last: Option<EntryKind>,
}

impl Before {
    ghost use Rattle.listing_fields.specs.Kinds.{kind_tag, last_tag};
    ghost use Rattle.listing_fields.specs.Reading.{Tells};

    /// With one record more.
    fn with(self, next: ListingRecord<'_>) -> Before
        requires { self.columns + 1 < 2 ^ 64 }
        ensures { (es : List Entry) → Tells self es → Tells result (es ++ meant next.entry ∷ []) }
    {
        match next {
            ListingRecord::Column { .. } => Before {
                columns: self.columns + 1,
                last: Some(EntryKind::Column),
            },
            ListingRecord::Row { .. } => Before {
                columns: self.columns,
                last: Some(EntryKind::Row),
            },
        }
    }

    /// Whether an entry of this kind may follow.
    fn allows(self, kind: EntryKind) -> bool
        ensures { result ≡ nat_le (last_tag self.last) (kind_tag kind) }
    {
        self.last.is_none_or(|last| last <= kind)
    }

    /// The record of the next field, or the lowest fault that applies to what stands in its place.
    fn judge<'a>(
        self,
        field: Result<head::Field<'a>, FaultKind>,
    ) -> Result<ListingRecord<'a>, FaultKind>
        ensures { (es : List Entry) (bs rest : List ℕ) → Tells self es → IsCut bs field.entry rest →
            MatchResult result (λ v. Reads es bs rest (meant v)) (First (checks listing_format es bs)) }
    {
        let field = field?;
        let kind = EntryKind::try_from(field.tag)?;
        if !self.allows(kind) {
            return Err(FaultKind::TagOrder);
        }
        match kind {
            EntryKind::Column => judge_column(field.body),
            EntryKind::Row => judge_row(self.columns, field.body),
        }
    }
}

/// The records of a listing, in the order of its fields, or its first fault.
// Kept: a case is read by such a loop too; what is kept between fields and asked at the end is another, and a trait of these would be longer than both loops.
pub fn read_listing<'a>(heap: Global, input: &'a [u8]) -> Result<Vec<ListingRecord<'a>>, ReadError>
    ensures reads { MatchResult result
        (λ v. IsFile listing_format input.now (map meant v.items))
        (Told listing_format input.now) }
    ensures accepts { (es : List Entry) → IsFile listing_format input.now es →
        MatchResult result (λ v. map meant v.items ≡ es) (λ e. e ≡ Memory) }
    ensures refuses { (fault : FieldFault) → FirstFault listing_format input.now fault →
        MatchResult result (λ _. ⊥) (λ e. (e ≡ Memory) ⊎ (e ≡ Field fault)) }
{
    let mut records = Vec::new(heap);
    let mut before = Before {
        columns: 0,
        last: None,
    };
    for (offset, field) in Fields::of(input) {
        let next = before
            .judge(field)
            .map_err(|kind| FieldFault { kind, offset })?;
        records.push(next)?;
        before = before.with(next);
    }
    Ok(records)
}
