//! Where the case of an input ends.
ghost use Rattle.std.specs.Prelude.{◌≡◌, ◌≤◌, length, take, drop};
ghost use Rattle.inputs.specs.Parts.{is_certificate_tag, CasePart};
ghost use Rattle.inputs.specs.Walks.{certificate_in_front};

use fields::certificate::CertificateKind;
use fields::walk::Fields;

/// Whether certificates have the tag.
fn is_certificate_tag(tag: u8) -> bool
    ensures { result ≡ is_certificate_tag tag }
{
    CertificateKind::try_from(tag).is_ok()
}

/// Whether the bytes begin with the tag of a certificate.
fn begins_certificate(bytes: &[u8]) -> bool
    ensures { result ≡ certificate_in_front bytes.now }
{
    matches!(bytes, [tag, ..] if is_certificate_tag(*tag))
}

/// The number of bytes of the case that an input begins with.
pub fn case_length(input: &[u8]) -> usize
    ensures short { result ≤ length input.now }
    ensures part { CasePart input.now (take result input.now) (drop result input.now) }
{
    for (offset, _) in Fields::of(input) {
        if begins_certificate(&input[offset..]) {
            return offset;
        }
    }
    input.len()
}
