//! What a docket answers to a certificate.
ghost use Rattle.std.specs.Prelude.{◌≡◌};
ghost use Rattle.docket.specs.Verdicts.{refusal};

use books::part::Place;
use certificates::fault::DocketFault;

/// The answer to a certificate.
// Kept: a rule of the project has a refusal as number, place and clause.
#[derive(Clone, Copy, PartialEq, Eq, Debug)]
pub enum Verdict {
    /// Accepted, with its net benefit or its bound.
    Accepted {
        figure: i64,
    },
    /// Refused, with the number and place of the first check that fails, and the code of the clause where the place is a row.
    Refused {
        number: u8,
        place: Place,
        clause: Option<u8>,
    },
}

impl From<DocketFault> for Verdict {
    ghost from_gives = { λ f r. r ≡ refusal f };

    fn from(fault: DocketFault) -> Verdict {
        Verdict::Refused {
            number: fault.number(),
            place: fault.place(),
            clause: fault.clause(),
        }
    }
}
