//! What can be wrong with a book.
ghost use Rattle.std.specs.Prelude.{◌≡◌};
ghost use Rattle.books.specs.Faults.{rule, book_error};
ghost use Rattle.books.specs.declared.fault.BookFault.TheVariants.{Field};
ghost use Rattle.books.specs.declared.fault.BookError.TheVariants.{Memory, Fault};

use crate::part::Place;
use fields::fault::{FieldFault, ReadError};
use std::alloc::{AllocError, AllocFailed};

/// What is wrong with a book; the comment on each is its number.
#[derive(Clone, Copy, PartialEq, Eq, Debug)]
pub enum BookFault {
    /// 1 to 6 and 8: a field of the input is at fault.
    Field(FieldFault),
    /// 7: more than 4,000 columns or rows, or 500 terms in a row, in an input of this length.
    TooLarge { length: usize },
    /// 30: no room for a row of this number.
    NoRoom { row: usize },
    /// 31: the row that would get this number is against the conditions.
    UnfitRow { row: usize },
    /// 40: the buffer is shorter than needed.
    ShortBuffer { needed: usize },
}

impl BookFault {
    /// The number under which the fault is reported.
    pub fn number(self) -> u8
        ensures { result ≡ (rule self).number }
    {
        match self {
            BookFault::Field(fault) => fault.kind.number(),
            BookFault::TooLarge { .. } => 7,
            BookFault::NoRoom { .. } => 30,
            BookFault::UnfitRow { .. } => 31,
            BookFault::ShortBuffer { .. } => 40,
        }
    }

    /// Where the fault is.
    pub fn place(self) -> Place
        ensures { result ≡ (rule self).place }
    {
        match self {
            BookFault::Field(fault) => Place::Offset(fault.offset),
            BookFault::TooLarge { length } => Place::Offset(length),
            BookFault::NoRoom { row } => Place::Row(row),
            BookFault::UnfitRow { row } => Place::Row(row),
            BookFault::ShortBuffer { needed } => Place::Offset(needed),
        }
    }
}

impl From<FieldFault> for BookFault {
    ghost from_gives = { λ f r. r ≡ Field f };

    fn from(fault: FieldFault) -> BookFault {
        BookFault::Field(fault)
    }
}

/// Why there is no book.
// Kept: it has the shape of `ReadError`; one generic error would be of another crate here, so that its conversion from `ReadError` could not be written.
#[derive(Clone, Copy, PartialEq, Eq, Debug)]
pub enum BookError {
    /// There was no memory for it.
    Memory,
    /// The input, the row or the buffer has this fault.
    Fault(BookFault),
}

impl From<BookFault> for BookError {
    ghost from_gives = { λ f r. r ≡ Fault f };

    fn from(fault: BookFault) -> BookError {
        BookError::Fault(fault)
    }
}

impl From<ReadError> for BookError {
    ghost from_gives = { λ e r. r ≡ book_error e };

    fn from(e: ReadError) -> BookError {
        match e {
            ReadError::Memory => BookError::Memory,
            ReadError::Field(fault) => BookError::Fault(BookFault::Field(fault)),
        }
    }
}

impl From<AllocError> for BookError {
    ghost from_gives = { λ _ r. r ≡ Memory };

    fn from(_e: AllocError) -> BookError {
        BookError::Memory
    }
}

impl<T: Drop> From<AllocFailed<T>> for BookError {
    ghost from_gives = { λ _ r. r ≡ Memory };

    fn from(_e: AllocFailed<T>) -> BookError {
        BookError::Memory
    }
}
