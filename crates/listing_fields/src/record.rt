//! A field of a listing.
ghost use Rattle.std.specs.Prelude.{◌≡◌, false, MatchResult};
ghost use Rattle.fields.specs.declared.fault.FaultKind.TheVariants.{UnknownTag};
ghost use Rattle.listing_fields.specs.Tests.{known};

use crate::term::Terms;
use fields::fault::FaultKind;

/// What a field of a listing is. Its number is the tag.
#[derive(Clone, Copy, PartialEq, Eq, PartialOrd, Ord, Debug)]
pub enum EntryKind {
    Column = 10,
    Row = 11,
}

impl EntryKind {
    ghost use Rattle.listing_fields.specs.Kinds.{kind_tag};

    /// The tag of a field of this kind.
    pub fn tag(self) -> u8
        ensures { result ≡ kind_tag self }
    {
        self as u8
    }
}

impl TryFrom<u8> for EntryKind {
    ghost use Rattle.listing_fields.specs.Kinds.{kind_tag};

    type Error = FaultKind;

    ghost try_from_gives = { λ t r. MatchResult r (λ k. kind_tag k ≡ t) (λ e. (e ≡ UnknownTag) × (known t ≡ false)) };

    fn try_from(tag: u8) -> Result<EntryKind, FaultKind> {
        match tag {
            10 => Ok(EntryKind::Column),
            11 => Ok(EntryKind::Row),
            _ => Err(FaultKind::UnknownTag),
        }
    }
}

/// A field of a listing. The terms of a row stay in the listing.
#[derive(Clone, Copy)]
pub enum ListingRecord<'a> {
    /// A column: its limits, its price, and whether it is a switch.
    Column {
        lower: i32,
        upper: i32,
        price: i32,
        switch: bool,
    },
    /// A row: its code, the sides that it has, and its terms.
    Row {
        code: u8,
        lower: Option<i64>,
        upper: Option<i64>,
        terms: Terms<'a>,
    },
}
