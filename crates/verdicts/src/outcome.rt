//! What becomes of an input: a case, and then certificates.
ghost use Rattle.std.specs.Prelude.{IfOk};
ghost use Rattle.clause_book.specs.Books.{clause_lists};
ghost use Rattle.verdicts.specs.Outcomes.{JudgedOn, Becomes};

use crate::calls::calls_of;
use books::fault::{BookError, BookFault};
use clause_book::book::ClauseBook;
use docket::run::{Call, Run, judge_calls};
pub use inputs::limit::INPUT_LIMIT;
use inputs::part::case_length;
use std::alloc::{AllocError, Global};

/// Certificates and the answers to them.
// Kept: the calls and the answers to them are joined by `zip` where they are shown; an answer that held its call would be no plainer, since its contract would have to say that the call is the one that was made.
#[derive(Drop)]
pub struct Judgement<'a> {
    pub calls: Vec<Call<'a>>,
    pub run: Run,
}

/// What becomes of an input.
#[derive(Drop)]
pub enum Outcome<'a> {
    /// It is longer than a program takes.
    InputRefused,
    /// Its case is unfit, and this is the first fault.
    CaseRefused(BookFault),
    /// Its certificates are judged.
    Judged(Judgement<'a>),
}

/// The certificates judged on a book.
fn judge<'a>(
    heap: Global,
    book: &ClauseBook,
    certificates: &'a [u8],
) -> Result<Judgement<'a>, AllocError>
    ensures { IfOk result (λ j. JudgedOn (clause_lists book.now) certificates.now j.calls.items j.run) }
{
    let calls = calls_of(heap, certificates)?;
    let run = judge_calls(heap, book, &calls)?;
    Ok(Judgement { calls, run })
}

/// What becomes of the input; an error is want of memory.
pub fn outcome_of<'a>(heap: Global, input: &'a [u8]) -> Result<Outcome<'a>, AllocError>
    ensures { IfOk result (Becomes input.now) }
{
    if input.len() > INPUT_LIMIT {
        return Ok(Outcome::InputRefused);
    }
    let (case, certificates) = input.split_at(case_length(input));
    match ClauseBook::open(heap, case) {
        Ok(book) => Ok(Outcome::Judged(judge(heap, &book, certificates)?)),
        Err(BookError::Fault(fault)) => Ok(Outcome::CaseRefused(fault)),
        // Kept: `BookError::Memory` holds no `AllocError` that could be returned; with one, each clause `e ≡ Memory` would name it, and be no plainer.
        Err(BookError::Memory) => Err(AllocError),
    }
}
