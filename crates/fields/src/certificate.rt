//! The one field of a certificate.
ghost use Rattle.std.specs.Prelude.{◌≡◌, ℕ, List, MatchResult};
ghost use Rattle.fields.specs.Certificates.{certificate_tag, IsCertificate, certificate_checks};
ghost use Rattle.fields.specs.Faults.{First};
ghost use Rattle.fields.specs.declared.fault.FaultKind.{FaultKind};

use crate::fault::{FaultKind, FieldFault};
use crate::head::cut_field;
use crate::number::Number;
use std::fmt;

/// What a certificate holds.
#[derive(Clone, Copy, PartialEq, Eq, Debug)]
pub enum CertificateKind {
    /// One four-byte number a column.
    Schedule,
    /// One eight-byte number a row.
    Multipliers,
}

impl CertificateKind {
    /// The tag of its field.
    pub fn tag(self) -> u8
        ensures { result ≡ certificate_tag self }
    {
        match self {
            CertificateKind::Schedule => 20,
            CertificateKind::Multipliers => 21,
        }
    }
}

impl TryFrom<u8> for CertificateKind {
    type Error = FaultKind;

    ghost use Rattle.fields.specs.Certificates.{IsKind};

    ghost try_from_gives = { IsKind };

    fn try_from(tag: u8) -> Result<CertificateKind, FaultKind> {
        match tag {
            20 => Ok(CertificateKind::Schedule),
            21 => Ok(CertificateKind::Multipliers),
            _ => Err(FaultKind::UnknownTag),
        }
    }
}

impl fmt::Display for CertificateKind {
    ghost use Rattle.std.specs.Prelude.{Some};
    ghost use Rattle.fields.specs.Certificates.{kind_text};

    ghost output = { λ k. Some (kind_text k) };

    fn fmt<W: fmt::Write>(&self, f: &mut fmt::Formatter<W>) -> fmt::Result {
        match self {
            CertificateKind::Schedule => write!(f, "schedule"),
            CertificateKind::Multipliers => write!(f, "multipliers"),
        }
    }
}

/// A certificate: its label, and the bytes of its numbers, which stay in the input.
#[derive(Clone, Copy)]
pub struct Certificate<'a> {
    pub label: u32,
    pub values: &'a [u8],
}

/// The certificate that is all of the input, or the lowest fault that applies.
fn judge_certificate(kind: CertificateKind, input: &[u8]) -> Result<Certificate<'_>, FaultKind>
    ensures { MatchResult result
        (λ c. IsCertificate kind input.now c.label c.values.now)
        (λ k. First (certificate_checks kind input.now) k) }
{
    let (field, rest) = cut_field(input)?;
    if field.tag != kind.tag() {
        return Err(FaultKind::UnknownTag);
    }
    if !rest.is_empty() {
        return Err(FaultKind::BadLength);
    }
    let Some((label, values)) = u32::split(field.body) else {
        return Err(FaultKind::BadLength);
    };
    Ok(Certificate { label, values })
}

/// The certificate that is all of the input: one whole field with its tag, its label and its value bytes.
/// A fault is placed at offset 0.
pub fn read_certificate(kind: CertificateKind, input: &[u8]) -> Result<Certificate<'_>, FieldFault>
    ensures reads { MatchResult result
        (λ c. IsCertificate kind input.now c.label c.values.now)
        (λ e. (e.offset ≡ 0) × First (certificate_checks kind input.now) e.kind) }
    ensures accepts { (label : ℕ) (values : List ℕ) → IsCertificate kind input.now label values →
        MatchResult result (λ c. (c.label ≡ label) × (c.values.now ≡ values)) (λ _. ⊥) }
    ensures refuses { (k : FaultKind) → First (certificate_checks kind input.now) k →
        MatchResult result (λ _. ⊥) (λ e. e.kind ≡ k) }
{
    judge_certificate(kind, input).map_err(|kind| FieldFault { kind, offset: 0 })
}
