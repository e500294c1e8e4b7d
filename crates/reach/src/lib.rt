//! Sums, differences and products that lie within ±2^60, tested before they are made.
#![tactic(auto)]

ghost use Rattle.std.specs.Prelude.{◌≡◌, ◌+ℤ◌, ◌-ℤ◌, ◌*ℤ◌};
ghost use Rattle.certificates.specs.Steps.{in_reach};
ghost use Rattle.reach.specs.Ranged.{reach, more, less};

const HIGH: i64 = 1 << 60;

const LOW: i64 = -(1 << 60);

/// A number, if it lies within the reach.
fn within(z: i64) -> Option<i64>
    ensures { result ≡ reach z }
{
    (LOW..=HIGH).contains(&z).then_some(z)
}

// Kept: sum and difference, and more and less, are two steps in one line each; one function that takes the step as a closure is no plainer.
/// The sum, if it lies within the reach.
pub fn sum(a: i64, b: i64) -> Option<i64>
    ensures { result ≡ reach (a +ℤ b) }
{
    a.checked_add(b).and_then(within)
}

/// The difference, if it lies within the reach.
pub fn difference(a: i64, b: i64) -> Option<i64>
    ensures { result ≡ reach (a -ℤ b) }
{
    a.checked_sub(b).and_then(within)
}

// Kept: a product is made only behind a test of the reach, by the exact cases of the signs: a rule of the project.
/// Whether the product lies within the reach, by the signs.
#[tactic(auto, using(crate::proofs::Signs::by_signs))]
fn product_fits(a: i64, b: i64) -> bool
    ensures { result ≡ in_reach (a *ℤ b) }
{
    if a > 0 {
        if b > 0 { a <= HIGH / b } else { b >= LOW / a }
    } else if a < 0 {
        if b > 0 { a >= LOW / b } else { b >= HIGH / a }
    } else {
        true
    }
}

/// The product, if it lies within the reach.
pub fn product(a: i64, b: i64) -> Option<i64>
    ensures { result ≡ reach (a *ℤ b) }
{
    product_fits(a, b).then(|| a * b)
}

/// t + a × b, if the product and the sum lie within the reach.
pub fn more(t: i64, a: i64, b: i64) -> Option<i64>
    ensures { result ≡ more t a b }
{
    sum(t, product(a, b)?)
}

/// t − a × b, if the product and the difference lie within the reach.
pub fn less(t: i64, a: i64, b: i64) -> Option<i64>
    ensures { result ≡ less t a b }
{
    difference(t, product(a, b)?)
}
