//! The fields of a file, one after the other.
ghost use Rattle.std.specs.Prelude.{◌≡◌, ◌≤◌, length};
ghost use Rattle.std.specs.Iterator.{at_most};

use crate::fault::FaultKind;
use crate::head::{Field, cut_field};

/// The fields of a file that are left. Behind one that passes the end nothing is left.
#[derive(Drop)]
pub struct Fields<'a> {
    pub input: &'a [u8],
    pub rest: &'a [u8],
    ghost within: { length rest.now ≤ length input.now },
}

impl<'a> Fields<'a> {
    /// The fields of an input.
    pub fn of(input: &'a [u8]) -> Fields<'a>
        ensures input { result.input.now ≡ input.now }
        ensures rest { result.rest.now ≡ input.now }
    {
        Fields { input, rest: input }
    }
}

impl<'a> Iterator for Fields<'a> {
    ghost use Rattle.fields.specs.Walks.{Cuts};

    /// The place of a field, and the field or what is wrong with it.
    type Item = (usize, Result<Field<'a>, FaultKind>);

    ghost next_gives = { Cuts };

    ghost remaining = { λ s. at_most (length s.rest.now) };

    fn next(&mut self) -> Option<(usize, Result<Field<'a>, FaultKind>)> {
        if self.rest.is_empty() {
            return None;
        }
        let offset = self.input.len() - self.rest.len();
        match cut_field(self.rest) {
            Ok((field, rest)) => {
                self.rest = rest;
                Some((offset, Ok(field)))
            }
            Err(kind) => {
                self.rest = &[];
                Some((offset, Err(kind)))
            }
        }
    }
}
