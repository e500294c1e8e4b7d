//! A product in 64 bits.
ghost use Rattle.std.specs.Prelude.{◌≡◌, ◌*ℤ◌};

// Kept: clauses has the same line; neither crate uses the other, and a crate for one line is no plainer.
/// The product of two numbers, which fits 64 bits.
pub(crate) fn wide_product(a: i32, b: i32) -> i64
    ensures { result ≡ a *ℤ b }
{
    i64::from(a) * i64::from(b)
}
