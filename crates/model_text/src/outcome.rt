//! What becomes of an input that should be a case.
ghost use Rattle.std.specs.Prelude.{IfOk, MatchResult};
ghost use Rattle.clause_book.specs.Opening.{Told};
ghost use Rattle.model_text.specs.Outcomes.{IsCase, Becomes};

use books::fault::{BookError, BookFault};
use case_fields::read::read_case;
use case_fields::record::CaseRecord;
pub use case_text::outcome::INPUT_LIMIT;
use clause_book::book::ClauseBook;
use std::alloc::{AllocError, Global};

/// What becomes of an input.
#[derive(Drop)]
pub enum Outcome<'a> {
    /// It is longer than a program takes.
    InputRefused,
    /// It is no case, or one that is too large, and this is its first fault.
    CaseRefused(BookFault),
    /// It is this case.
    Case(Case<'a>),
}

/// A case: its records, and the book over it.
#[derive(Drop)]
pub struct Case<'a> {
    pub records: Vec<CaseRecord<'a>>,
    pub book: ClauseBook,
}

/// The case that the input is, or what is wrong with the input.
fn case_of<'a>(heap: Global, input: &'a [u8]) -> Result<Case<'a>, BookError>
    ensures { MatchResult result (IsCase input.now) (Told input.now) }
{
    let book = ClauseBook::open(heap, input)?;
    let records = read_case(heap, input)?;
    Ok(Case { records, book })
}

/// What becomes of the input; an error is want of memory.
pub fn outcome_of<'a>(heap: Global, input: &'a [u8]) -> Result<Outcome<'a>, AllocError>
    ensures { IfOk result (Becomes input.now) }
{
    if input.len() > INPUT_LIMIT {
        return Ok(Outcome::InputRefused);
    }
    match case_of(heap, input) {
        Ok(case) => Ok(Outcome::Case(case)),
        Err(BookError::Fault(fault)) => Ok(Outcome::CaseRefused(fault)),
        // Kept: `BookError::Memory` holds no `AllocError` that could be returned; with one, each clause `e ≡ Memory` would name it, and be no plainer.
        Err(BookError::Memory) => Err(AllocError),
    }
}
