//! Verdicts and what stands in words.
use crate::standing::Standing;
use crate::verdict::Verdict;
use books::clause::clause_of;
use std::fmt;

/// What is there, or a dash.
#[derive(Clone, Copy, Drop)]
pub struct OrDash<T>(pub Option<T>);

impl<T: fmt::Display> fmt::Display for OrDash<T> {
    ghost use Rattle.docket.specs.Texts.{or_dash};

    ghost output = { λ x. or_dash T.output x.0 };

    fn fmt<W: fmt::Write>(&self, f: &mut fmt::Formatter<W>) -> fmt::Result {
        match &self.0 {
            Some(x) => write!(f, "{x}"),
            None => write!(f, "-"),
        }
    }
}

/// The clause of a code behind a place, where there is one.
#[derive(Clone, Copy, Drop)]
struct BehindPlace(Option<u8>);

impl fmt::Display for BehindPlace {
    ghost use Rattle.std.specs.Prelude.{Some};
    ghost use Rattle.docket.specs.Texts.{clause_text};

    ghost output = { λ c. Some (clause_text c.0) };

    fn fmt<W: fmt::Write>(&self, f: &mut fmt::Formatter<W>) -> fmt::Result {
        match self.0.and_then(clause_of) {
            Some(clause) => {
                let text = clause.text;
                write!(f, " clause {text}")
            }
            None => Ok(()),
        }
    }
}

impl fmt::Display for Verdict {
    ghost use Rattle.std.specs.Prelude.{Some};
    ghost use Rattle.docket.specs.Texts.{verdict_text};

    ghost output = { λ v. Some (verdict_text v) };

    fn fmt<W: fmt::Write>(&self, f: &mut fmt::Formatter<W>) -> fmt::Result {
        match self {
            Verdict::Accepted { figure } => write!(f, "accepted {figure}"),
            Verdict::Refused {
                number,
                place,
                clause,
            } => {
                let clause = BehindPlace(*clause);
                write!(f, "refused {number} {place}{clause}")
            }
        }
    }
}

impl fmt::Display for Standing {
    ghost use Rattle.std.specs.Prelude.{Some};
    ghost use Rattle.docket.specs.Texts.{stands_text};

    ghost output = { λ s. Some (stands_text s) };

    fn fmt<W: fmt::Write>(&self, f: &mut fmt::Formatter<W>) -> fmt::Result {
        let best_label = OrDash(self.best_label);
        let best = OrDash(self.best);
        let bound_label = OrDash(self.bound_label);
        let bound = OrDash(self.bound);
        let gap = OrDash(self.gap);
        write!(f, "{best_label} {best} {bound_label} {bound} {gap}")
    }
}
