//! A docket on one book.
ghost use Rattle.std.specs.Prelude.{◌≡◌, [], IfOk, None};
ghost use Rattle.fields.specs.declared.certificate.CertificateKind.TheVariants.{Schedule, Multipliers};
ghost use Rattle.docket.specs.Calls.{laid};
ghost use Rattle.docket.specs.Docketed.{Lays, IsStanding};
ghost use Rattle.docket.specs.Standings.{StandingOf};
ghost use Rattle.docket.specs.Labels.{standing_by};

use crate::judge::judge_certificate;
use crate::standing::{Labelled, Standing, gap_of, leader};
use crate::verdict::Verdict;
use books::book::Book;
use fields::certificate::CertificateKind;
use multipliers::working_table::WorkingTable;
use std::alloc::{AllocError, Global};
use std::marker::Model;

/// A docket stands on one book, which it borrows, and keeps the best net benefit and the lowest bound of the certificates laid on it.
#[derive(Drop)]
pub struct Docket<'a, B: Book> {
    book: &'a B,
    table: WorkingTable,
    best: Option<Labelled>,
    bound: Option<Labelled>,
}

impl<'a, B: Book> Model for Docket<'a, B> {
    ghost use Rattle.std.specs.Prelude.{◌≡◌, true};
    ghost use Rattle.multipliers.specs.Tables.{held};
    ghost use Rattle.docket.specs.Docketed.{Docketed, docketed};
    ghost use Rattle.docket.specs.Labels.{standing_by, best_fits, bound_fits};

    ghost Value = { Docketed B };

    ghost view = { λ d. docketed d.book.now (held d.table) (standing_by d.best d.bound) };

    ghost invariant = { λ d. (best_fits d.best ≡ true) × (bound_fits d.bound ≡ true) };
}

impl<'a, B: Book> Docket<'a, B> {
    /// Opens a docket on a book: nothing stands on it. It is refused for want of memory alone.
    pub fn open(heap: Global, book: &'a B) -> Result<Docket<'a, B>, AllocError>
        ensures book { IfOk result (λ d. d.book ≡ book.now) }
        ensures nothing { IfOk result (λ d. d.standing ≡ standing_by None None) }
        ensures stands { IfOk result (λ d. StandingOf (B.Book.meaning book.now) [] d.standing) }
        ensures figures { IfOk result (λ d. IsStanding d.standing) }
    {
        let table = WorkingTable::new(heap)?;
        Ok(Docket {
            book,
            table,
            best: None,
            bound: None,
        })
    }

    /// What stands.
    pub fn standing(&self) -> Standing
        ensures value { result ≡ self.now.standing }
        ensures figures { IsStanding result }
    {
        Standing {
            best_label: self.best.map(|best| best.label),
            best: self.best.map(|best| best.figure),
            bound_label: self.bound.map(|bound| bound.label),
            bound: self.bound.map(|bound| bound.figure),
            gap: gap_of(self.best, self.bound),
        }
    }

    /// Lays a certificate, which is all of the field's bytes.
    /// The verdict is that of the first check that fails, or of none; whatever calls came before, what stands after it is what they and this call establish; a refusal leaves the docket as it was.
    pub fn lay(&mut self, kind: CertificateKind, field: &[u8]) -> Verdict
        ensures { Lays B.Book.meaning (laid kind field.now) result self.old self.new }
    {
        match judge_certificate(self.book, &mut self.table, kind, field) {
            Ok(new) => {
                match kind {
                    CertificateKind::Schedule => {
                        self.best = Some(leader(self.best, new, |new, old| new > old));
                    }
                    CertificateKind::Multipliers => {
                        self.bound = Some(leader(self.bound, new, |new, old| new < old));
                    }
                }
                Verdict::Accepted { figure: new.figure }
            }
            Err(fault) => fault.into(),
        }
    }

    /// Lays a schedule, as `lay` does.
    pub fn lay_schedule(&mut self, field: &[u8]) -> Verdict
        ensures { Lays B.Book.meaning (laid Schedule field.now) result self.old self.new }
    {
        self.lay(CertificateKind::Schedule, field)
    }

    /// Lays a set of multipliers, as `lay` does.
    pub fn lay_multipliers(&mut self, field: &[u8]) -> Verdict
        ensures { Lays B.Book.meaning (laid Multipliers field.now) result self.old self.new }
    {
        self.lay(CertificateKind::Multipliers, field)
    }
}
