//! Whole runs: a docket is opened on a book, every call is made, and the standing is read after each.
ghost use Rattle.std.specs.Prelude.{map, IfOk};
ghost use Rattle.docket.specs.Runs.{laid_by, RightRun};

use crate::docket::Docket;
use crate::standing::Standing;
use crate::verdict::Verdict;
use books::book::Book;
use fields::certificate::CertificateKind;
use std::alloc::{AllocError, Global};

/// A call on a docket: the kind of certificate that is laid, and the bytes of its one field.
#[derive(Clone, Copy)]
pub struct Call<'a> {
    pub kind: CertificateKind,
    pub field: &'a [u8],
}

/// The verdict on a call, and what stands after it.
#[derive(Clone, Copy)]
pub struct Answer {
    pub verdict: Verdict,
    pub standing: Standing,
}

/// The answers to the calls of a run, and what stands in the end.
#[derive(Drop)]
pub struct Run {
    pub answers: Vec<Answer>,
    pub standing: Standing,
}

/// Opens a docket on a book, makes the calls in their order, and reads the standing after each. It is refused for want of memory alone.
///
/// Over every book and every list of calls, refused ones among them: after every call the standing bound caps every schedule that meets the book, in whole kilowatts and in equal parts;
/// a certificate is accepted exactly when its checks pass, and a refusal is that of the first check that fails; the best net benefit is the greatest accepted and the bound the lowest accepted,
/// each under the label that first reached it; the gap is never negative and never grows.
pub fn judge_calls<B: Book>(heap: Global, book: &B, calls: &[Call<'_>]) -> Result<Run, AllocError>
    ensures { IfOk result (λ j. RightRun (B.Book.meaning book.now) (map laid_by calls.now) j.answers.items j.standing) }
{
    let mut docket = Docket::open(heap, book)?;
    let mut answers = Vec::new(heap);
    for call in calls {
        let verdict = docket.lay(call.kind, call.field);
        let standing = docket.standing();
        answers.push(Answer { verdict, standing })?;
    }
    let standing = docket.standing();
    Ok(Run { answers, standing })
}
