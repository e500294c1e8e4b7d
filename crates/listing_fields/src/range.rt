//! Which numbers of columns and rows are in range.
ghost use Rattle.std.specs.Prelude.{◌≡◌};
ghost use Rattle.listing_fields.specs.Tests.{within, is_limit, are_limits, is_price, is_coefficient};

/// Whether a limit of a column is in range.
pub fn is_limit(z: i32) -> bool
    ensures { result ≡ is_limit z }
{
    (-20_000_000..=20_000_000).contains(&z)
}

/// Whether both limits of a column are in range, and in order.
pub fn are_limits(lower: i32, upper: i32) -> bool
    ensures { result ≡ are_limits lower upper }
{
    is_limit(lower) && is_limit(upper) && lower <= upper
}

/// Whether a price is in range.
pub fn is_price(z: i32) -> bool
    ensures { result ≡ is_price z }
{
    (-10_000_000..=10_000_000).contains(&z)
}

/// Whether a side of a row is in range.
pub fn is_side(z: i64) -> bool
    ensures { result ≡ within 10000000000000000 z }
{
    (-10_000_000_000_000_000..=10_000_000_000_000_000).contains(&z)
}

/// Whether a coefficient is in range.
pub fn is_coefficient(z: i32) -> bool
    ensures { result ≡ is_coefficient z }
{
    (-1_000_000..=1_000_000).contains(&z)
}
