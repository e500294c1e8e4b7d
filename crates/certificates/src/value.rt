//! The numbers of a certificate, which stay in its field.
ghost use Rattle.std.specs.Prelude.{◌≡◌};
ghost use Rattle.certificates.specs.Checks.{right_count};

use fields::number::Number;
use fields::sequence::{Element, Sequence};
use std::marker::Model;

/// A number of a certificate, as an integer of its width.
#[derive(Clone, Copy, PartialEq, Eq, Debug)]
pub struct CertificateNumber<N>(N);

impl<N> Model for CertificateNumber<N> {
    ghost Value = { N };

    ghost view = { λ f. f.0 };

    ghost inverse = { λ n. record { 0 = n } };
}

/// The number that a schedule gives a column.
pub type Quantity = CertificateNumber<i32>;

/// The multiplier that a set gives a row.
pub type Multiplier = CertificateNumber<i64>;

/// The numbers of a schedule, one a column.
pub type Quantities<'a> = Sequence<'a, Quantity>;

/// The multipliers of a set, one a row.
pub type Multipliers<'a> = Sequence<'a, Multiplier>;

impl From<CertificateNumber<i32>> for i32 {
    ghost use Rattle.std.specs.Prelude.{◌≡◌};

    ghost from_gives = { λ q n. n ≡ q };

    fn from(quantity: Quantity) -> i32 {
        quantity.0
    }
}

impl From<CertificateNumber<i64>> for i64 {
    ghost use Rattle.std.specs.Prelude.{◌≡◌};

    ghost from_gives = { λ y n. n ≡ y };

    fn from(multiplier: Multiplier) -> i64 {
        multiplier.0
    }
}

impl Element for CertificateNumber<i32> {
    ghost use Rattle.certificates.specs.Values.{quantities};
    ghost use Rattle.certificates.specs.Held.{quantities_held};

    ghost WIDTH = { 4 };

    const WIDTH: usize = 4;

    ghost held = { quantities };

    #[tactic(auto, using(crate::proofs::Numbers::quantities_first))]
    fn split(bytes: &[u8]) -> Option<(Quantity, &[u8])> {
        let (number, rest) = i32::split(bytes)?;
        Some((CertificateNumber(number), rest))
    }

    ghost laws = { quantities_held };
}

impl Element for CertificateNumber<i64> {
    ghost use Rattle.certificates.specs.Values.{multipliers};
    ghost use Rattle.certificates.specs.Held.{multipliers_held};

    ghost WIDTH = { 8 };

    const WIDTH: usize = 8;

    ghost held = { multipliers };

    #[tactic(auto, using(crate::proofs::Numbers::multipliers_first))]
    fn split(bytes: &[u8]) -> Option<(Multiplier, &[u8])> {
        let (number, rest) = i64::split(bytes)?;
        Some((CertificateNumber(number), rest))
    }

    ghost laws = { multipliers_held };
}

/// Whether bytes are whole elements, and so many.
pub fn are_counted<T: Element>(bytes: &[u8], count: usize) -> bool
    ensures { result ≡ right_count T.WIDTH count bytes.now }
{
    bytes.len() % T::WIDTH == 0 && bytes.len() / T::WIDTH == count
}
