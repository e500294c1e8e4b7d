//! The certificates of an input.
ghost use Rattle.std.specs.Prelude.{◌≡◌, [], length, MatchOption};
ghost use Rattle.std.specs.Iterator.{at_most};
ghost use Rattle.inputs.specs.Parts.{CutsOff, kind_of as kind_by_tag};
ghost use Rattle.inputs.specs.Labels.{label_in};

use fields::certificate::CertificateKind;
use fields::head::cut_field;

/// The field in front, all of its bytes, and what follows it; a field that passes the end is cut by it. None exactly when there is no byte.
pub fn next_field(bytes: &[u8]) -> Option<(&[u8], &[u8])>
    ensures { MatchOption result
        (bytes.now ≡ [])
        (λ p. CutsOff bytes.now p.0.now p.1.now) }
{
    if bytes.is_empty() {
        return None;
    }
    match cut_field(bytes) {
        Ok((_, after)) => Some(bytes.split_at(bytes.len() - after.len())),
        Err(_) => Some(bytes.split_at(bytes.len())),
    }
}

/// The fields that bytes are cut into, of which some are left.
#[derive(Clone, Copy)]
pub struct Fields<'a> {
    pub left: &'a [u8],
}

impl<'a> Fields<'a> {
    /// The fields that bytes are cut into, in order.
    pub fn of(bytes: &'a [u8]) -> Fields<'a>
        ensures { result.left.now ≡ bytes.now }
    {
        Fields { left: bytes }
    }
}

impl<'a> Iterator for Fields<'a> {
    type Item = &'a [u8];

    ghost next_gives = { λ s r t. MatchOption r (s.left.now ≡ []) (λ f. CutsOff s.left.now f.now t.left.now) };

    ghost remaining = { λ s. at_most (length s.left.now) };

    fn next(&mut self) -> Option<&'a [u8]> {
        let (field, left) = next_field(self.left)?;
        self.left = left;
        Some(field)
    }
}

/// The kind that the field of a certificate is laid as: by tag 20 a schedule, and anything else as multipliers.
pub fn kind_of(field: &[u8]) -> CertificateKind
    ensures { result ≡ kind_by_tag field.now }
{
    match field {
        [20, ..] => CertificateKind::Schedule,
        _ => CertificateKind::Multipliers,
    }
}

/// The label of a certificate: the number in the bytes 3 to 6 of its field, if they are there.
pub fn label_of(field: &[u8]) -> Option<u32>
    ensures { result ≡ label_in field.now }
{
    let [_, _, _, a, b, c, d, ..] = field else {
        return None;
    };
    Some(u32::from_be_bytes([*a, *b, *c, *d]))
}
