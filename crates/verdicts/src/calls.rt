//! The calls that the certificates of an input make.
ghost use Rattle.std.specs.Prelude.{map, IfOk};
ghost use Rattle.docket.specs.Runs.{laid_by};
ghost use Rattle.verdicts.specs.Laying.{CallsOf};

use docket::run::Call;
use inputs::certificate::{Fields, kind_of};
use std::alloc::{AllocError, Global};

/// A call for each field that the bytes are cut into.
pub(crate) fn calls_of<'a>(
    heap: Global,
    certificates: &'a [u8],
) -> Result<Vec<Call<'a>>, AllocError>
    ensures { IfOk result (λ v. CallsOf certificates.now (map laid_by v.items)) }
{
    let mut calls = Vec::new(heap);
    for field in Fields::of(certificates) {
        calls.push(Call {
            kind: kind_of(field),
            field,
        })?;
    }
    Ok(calls)
}
