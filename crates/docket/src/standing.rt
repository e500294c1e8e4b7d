//! What stands on a docket.
ghost use Rattle.std.specs.Prelude.{◌≡◌, true, Some, None, ◌-ℤ◌, ◌*ℤ◌, if◌then◌else◌, MatchOption};
ghost use Rattle.certificates.specs.Bounds.{K};
ghost use Rattle.certificates.specs.Checks.{benefit_reaches};
ghost use Rattle.certificates.specs.Steps.{in_reach};
ghost use Rattle.docket.specs.Labels.{best_fits, bound_fits, figure_in};
ghost use Rattle.docket.specs.Standings.{gap_of};

/// A figure, and the label of the certificate that first reached it.
#[derive(Clone, Copy, PartialEq, Eq, Debug)]
pub struct Labelled {
    pub label: u32,
    pub figure: i64,
}

/// What stands: the best net benefit accepted so far and the lowest bound, in fine units, each with the label that first reached it,
/// and the gap between them, in fine units. What is not there yet is absent.
// Kept: a rule of the project has what stands as `Option`s of plain numbers.
#[derive(Clone, Copy, PartialEq, Eq, Debug)]
pub struct Standing {
    pub best_label: Option<u32>,
    pub best: Option<i64>,
    pub bound_label: Option<u32>,
    pub bound: Option<i64>,
    pub gap: Option<i64>,
}

/// What stands after a new figure: the new one if it is the first or better than what stood, by `is_better` of the new and the old figure.
pub(crate) fn leader<F: FnOnce(i64, i64) -> bool>(
    stood: Option<Labelled>,
    new: Labelled,
    is_better: F,
) -> Labelled
    requires { F.IsAlwaysCallable is_better }
    ensures { MatchOption stood
        (result ≡ new)
        (λ old. (better : _) × F.post is_better new.figure old.figure better × (result ≡ (if better then new else old))) }
{
    match stood {
        Some(old) if !is_better(new.figure, old.figure) => old,
        _ => new,
    }
}

/// A bound less a net benefit, in fine units.
fn between(best: i64, bound: i64) -> i64
    requires { (benefit_reaches best ≡ true) × (in_reach bound ≡ true) }
    ensures { result ≡ bound -ℤ K *ℤ best }
{
    bound - 100_000 * best
}

/// The gap, once both figures are there.
pub(crate) fn gap_of(best: Option<Labelled>, bound: Option<Labelled>) -> Option<i64>
    requires { (best_fits best ≡ true) × (bound_fits bound ≡ true) }
    ensures { result ≡ gap_of (figure_in best) (figure_in bound) }
{
    Some(between(best?.figure, bound?.figure))
}
