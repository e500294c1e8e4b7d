//! Numbers of a file: the highest byte first, signed ones in two's complement.
ghost use Rattle.std.specs.Prelude.{◌≡◌, ℕ, ◌+◌, ◌<◌, List, [], ◌∷◌, ◌++◌, length, MatchOption};
ghost use Rattle.fields.specs.Bytes.{two, four, signed_four, signed_eight};

/// A number that a file writes in a fixed number of bytes.
pub trait Number: Copy {
    /// How many bytes it takes, and which.
    ghost width: { ℕ };

    ghost written: { Self → List ℕ };

    /// The number in front, and what follows it; none exactly when there are fewer bytes.
    fn split(bytes: &[u8]) -> Option<(Self, &[u8])>
        ensures { MatchOption result (length bytes.now < width) (λ p. (bytes.now ≡ written p.0 ++ p.1.now) × (length p.1.now + width ≡ length bytes.now)) };
}

impl Number for u8 {
    ghost width = { 1 };

    ghost written = { λ n. n ∷ [] };

    fn split(bytes: &[u8]) -> Option<(u8, &[u8])> {
        let [a, rest @ ..] = bytes else {
            return None;
        };
        Some((*a, rest))
    }
}

impl Number for u16 {
    ghost width = { 2 };

    ghost written = { two };

    fn split(bytes: &[u8]) -> Option<(u16, &[u8])> {
        let [a, b, rest @ ..] = bytes else {
            return None;
        };
        Some((u16::from_be_bytes([*a, *b]), rest))
    }
}

impl Number for u32 {
    ghost width = { 4 };

    ghost written = { four };

    fn split(bytes: &[u8]) -> Option<(u32, &[u8])> {
        let [a, b, c, d, rest @ ..] = bytes else {
            return None;
        };
        Some((u32::from_be_bytes([*a, *b, *c, *d]), rest))
    }
}

impl Number for i32 {
    ghost width = { 4 };

    ghost written = { signed_four };

    fn split(bytes: &[u8]) -> Option<(i32, &[u8])> {
        let [a, b, c, d, rest @ ..] = bytes else {
            return None;
        };
        Some((i32::from_be_bytes([*a, *b, *c, *d]), rest))
    }
}

impl Number for i64 {
    ghost width = { 8 };

    ghost written = { signed_eight };

    fn split(bytes: &[u8]) -> Option<(i64, &[u8])> {
        let [a, b, c, d, e, f, g, h, rest @ ..] = bytes else {
            return None;
        };
        Some((i64::from_be_bytes([*a, *b, *c, *d, *e, *f, *g, *h]), rest))
    }
}
