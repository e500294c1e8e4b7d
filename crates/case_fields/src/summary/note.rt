//! One record more in a summary.
ghost use Rattle.std.specs.Prelude.{◌≡◌, ◌+◌, ◌<◌, ◌≤◌, true, List, [], ◌∷◌, ◌++◌, vec_len, OnOk, slice_set};
ghost use Rattle.case_fields.specs.Entries.{Entry};
ghost use Rattle.case_fields.specs.Encoding.{tag};
ghost use Rattle.case_fields.specs.Meant.{meant};
ghost use Rattle.case_fields.specs.Summaries.{SumsUp};
ghost use Rattle.case_fields.specs.Tests.{follows, refers};

use crate::record::CaseRecord;
use crate::summary::Summary;
use std::alloc::AllocError;

/// Marks the place, if there is one.
fn mark(marks: &mut Vec<bool>, place: usize)
    ensures items { marks.new.items ≡ slice_set marks.old.items place true }
    ensures len { vec_len marks.new ≡ vec_len marks.old }
{
    if let Some(mark) = marks.get_mut(place) {
        *mark = true;
    }
}

impl Summary {
    /// Takes in one record more, which may follow and refers to what is there.
    pub(crate) fn note(&mut self, record: CaseRecord<'_>) -> Result<(), AllocError>
        requires { self.old.nodes < 18446744073709551615 }
        ensures sums { (es : List Entry) → SumsUp self.old es → follows es (tag (meant «record».entry)) ≡ true → refers es (meant «record».entry) ≡ true → OnOk result (SumsUp self.new (es ++ meant «record».entry ∷ [])) }
        ensures grows { self.new.nodes ≤ self.old.nodes + 1 }
    {
        self.last = Some(record.kind());
        match record {
            CaseRecord::Period(_) => self.has_period = true,
            CaseRecord::Node(_) => self.nodes += 1,
            CaseRecord::EnergyOffer(_) => self.regulated.push(false)?,
            CaseRecord::RegulationOffer(regulation) => {
                mark(&mut self.regulated, regulation.offer as usize)
            }
            CaseRecord::Line(_) | CaseRecord::Bid(_) | CaseRecord::Requirement(_) => {}
        }
        Ok(())
    }
}
