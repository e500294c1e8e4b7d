//! The kinds of case records, each with its tag and its layout.
ghost use Rattle.std.specs.Prelude.{◌≡◌};
ghost use Rattle.case_fields.specs.Kinds.{Names, tag_of, once, front, fewest, most, takes};

use fields::fault::FaultKind;

/// The kind of a case record, in the order of the tags.
#[derive(Clone, Copy, PartialEq, Eq, PartialOrd, Ord, Debug)]
pub enum RecordKind {
    Period = 1,
    Node = 2,
    Line = 3,
    EnergyOffer = 4,
    Bid = 5,
    RegulationOffer = 6,
    Requirement = 15,
}

impl TryFrom<u8> for RecordKind {
    type Error = FaultKind;

    ghost try_from_gives = { Names };

    /// The kind that a tag names, or the fault where no case record has the tag.
    fn try_from(tag: u8) -> Result<RecordKind, FaultKind> {
        match tag {
            1 => Ok(RecordKind::Period),
            2 => Ok(RecordKind::Node),
            3 => Ok(RecordKind::Line),
            4 => Ok(RecordKind::EnergyOffer),
            5 => Ok(RecordKind::Bid),
            6 => Ok(RecordKind::RegulationOffer),
            15 => Ok(RecordKind::Requirement),
            _ => Err(FaultKind::UnknownTag),
        }
    }
}

impl RecordKind {
    /// Its tag.
    pub fn tag(self) -> u8
        ensures { result ≡ tag_of self }
    {
        self as u8
    }

    /// Whether a case has it exactly once.
    pub(crate) fn once(self) -> bool
        ensures { result ≡ once self }
    {
        matches!(self, RecordKind::Period | RecordKind::Requirement)
    }

    /// The bytes before the points or blocks.
    pub(crate) fn front(self) -> usize
        ensures { result ≡ front self }
    {
        match self {
            RecordKind::Period => 8,
            RecordKind::Node => 16,
            RecordKind::Line => 24,
            RecordKind::EnergyOffer => 14,
            RecordKind::Bid => 2,
            RecordKind::RegulationOffer => 14,
            RecordKind::Requirement => 8,
        }
    }

    /// The fewest points or blocks.
    pub(crate) fn fewest(self) -> usize
        ensures { result ≡ fewest self }
    {
        match self {
            RecordKind::Line => 2,
            RecordKind::EnergyOffer | RecordKind::Bid | RecordKind::RegulationOffer => 1,
            RecordKind::Period | RecordKind::Node | RecordKind::Requirement => 0,
        }
    }

    /// The most points or blocks.
    pub(crate) fn most(self) -> usize
        ensures { result ≡ most self }
    {
        match self {
            RecordKind::Line => 21,
            RecordKind::EnergyOffer | RecordKind::Bid => 10,
            RecordKind::RegulationOffer => 5,
            RecordKind::Period | RecordKind::Node | RecordKind::Requirement => 0,
        }
    }

    /// Whether a body can be so long.
    pub(crate) fn takes(self, long: usize) -> bool
        ensures { result ≡ takes self long }
    {
        long.checked_sub(self.front()).is_some_and(|parts| {
            parts % 8 == 0 && (self.fewest()..=self.most()).contains(&(parts / 8))
        })
    }
}
