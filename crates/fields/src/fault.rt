//! What can be wrong with a field.
ghost use Rattle.std.specs.Prelude.{◌≡◌};
ghost use Rattle.fields.specs.Faults.{rule};
ghost use Rattle.fields.specs.declared.fault.ReadError.TheVariants.{Memory, Field};

use std::alloc::{AllocError, AllocFailed};

/// What is wrong with a field; the comment on each is its number.
#[derive(Clone, Copy, PartialEq, Eq, Debug)]
pub enum FaultKind {
    /// 1: the head or the body passes the end of the input.
    PastEnd,
    /// 2: no field of this format has the tag.
    UnknownTag,
    /// 3: tags fall, one repeats that comes once, or one is missing.
    TagOrder,
    /// 4: the tag cannot have this length, or bytes follow the one field.
    BadLength,
    /// 5: a number is out of its range or out of order.
    OutOfRange,
    /// 6: what the field refers to is not there, or may not be referred to.
    BadReference,
    /// 8: the terms do not rise, or a coefficient is nought.
    TermOrder,
}

impl FaultKind {
    /// The number under which the fault is reported.
    pub fn number(self) -> u8
        ensures { result ≡ (rule self).number }
    {
        match self {
            FaultKind::PastEnd => 1,
            FaultKind::UnknownTag => 2,
            FaultKind::TagOrder => 3,
            FaultKind::BadLength => 4,
            FaultKind::OutOfRange => 5,
            FaultKind::BadReference => 6,
            FaultKind::TermOrder => 8,
        }
    }
}

/// A fault with its place: the offset of the field's tag byte, or the input's length for a missing tag.
#[derive(Clone, Copy, PartialEq, Eq, Debug)]
pub struct FieldFault {
    pub kind: FaultKind,
    pub offset: usize,
}

/// Why a file was not read.
#[derive(Clone, Copy, PartialEq, Eq, Debug)]
pub enum ReadError {
    /// There was no memory for the records.
    Memory,
    /// The file has this fault.
    Field(FieldFault),
}

impl From<FieldFault> for ReadError {
    ghost from_gives = { λ f r. r ≡ Field f };

    fn from(fault: FieldFault) -> ReadError {
        ReadError::Field(fault)
    }
}

impl From<AllocError> for ReadError {
    ghost from_gives = { λ _ r. r ≡ Memory };

    fn from(_e: AllocError) -> ReadError {
        ReadError::Memory
    }
}

impl<T: Drop> From<AllocFailed<T>> for ReadError {
    ghost from_gives = { λ _ r. r ≡ Memory };

    fn from(_e: AllocFailed<T>) -> ReadError {
        ReadError::Memory
    }
}
