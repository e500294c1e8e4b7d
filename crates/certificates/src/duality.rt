//! Weak duality.
ghost use Rattle.certificates.specs.Duality.{WeakDuality};

/// The bound of a set whose signs fit caps every schedule that meets the book.
pub fn bound_caps_schedules() -> u8
    ensures { WeakDuality }
{
    0
}
