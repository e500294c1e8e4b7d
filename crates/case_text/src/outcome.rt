//! What becomes of an input that should be a case.
ghost use Rattle.std.specs.Prelude.{IfOk};
ghost use Rattle.case_text.specs.Outcomes.{Becomes};

use case_fields::read::read_case;
use case_fields::record::CaseRecord;
use fields::fault::{FieldFault, ReadError};
pub use inputs::limit::INPUT_LIMIT;
use std::alloc::{AllocError, Global};

/// What becomes of an input.
#[derive(Drop)]
pub enum Outcome<'a> {
    /// It is longer than a program takes.
    InputRefused,
    /// It is no case, and this is its first fault.
    CaseRefused(FieldFault),
    /// It is the case of these records.
    Case(Vec<CaseRecord<'a>>),
}

/// What becomes of the input; an error is want of memory.
pub fn outcome_of<'a>(heap: Global, input: &'a [u8]) -> Result<Outcome<'a>, AllocError>
    ensures { IfOk result (Becomes input.now) }
{
    if input.len() > INPUT_LIMIT {
        return Ok(Outcome::InputRefused);
    }
    match read_case(heap, input) {
        Ok(records) => Ok(Outcome::Case(records)),
        Err(ReadError::Field(fault)) => Ok(Outcome::CaseRefused(fault)),
        // Kept: `ReadError::Memory` holds no `AllocError` that could be returned; with one, each clause `e ≡ Memory` would name it, and be no plainer.
        Err(ReadError::Memory) => Err(AllocError),
    }
}
