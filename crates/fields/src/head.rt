//! Cutting fields off the front of a file.
ghost use Rattle.std.specs.Prelude.{◌≡◌, MatchResult};
ghost use Rattle.fields.specs.Bytes.{Bytes};
ghost use Rattle.fields.specs.Fields.{Begins, Cut};
ghost use Rattle.fields.specs.declared.fault.FaultKind.TheVariants.{PastEnd};

use crate::fault::FaultKind;

/// One field: its tag and its body, which stays in the file.
#[derive(Clone, Copy)]
pub struct Field<'a> {
    pub tag: u8,
    pub body: &'a [u8],
}

/// The first field and what follows it.
/// Refused exactly when the head or the body passes the end.
pub fn cut_field(input: &[u8]) -> Result<(Field<'_>, &[u8]), FaultKind>
    ensures { MatchResult result
        (λ p. Begins input.now p.0.tag p.0.body.now p.1.now × Bytes p.0.body.now)
        (λ k. (k ≡ PastEnd) × Cut input.now) }
{
    let [tag, high, low, rest @ ..] = input else {
        return Err(FaultKind::PastEnd);
    };
    let long = usize::from(u16::from_be_bytes([*high, *low]));
    if rest.len() < long {
        return Err(FaultKind::PastEnd);
    }
    let (body, rest) = rest.split_at(long);
    Ok((Field { tag: *tag, body }, rest))
}
