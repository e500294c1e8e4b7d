//! The gap along a history.
ghost use Rattle.docket.specs.Standings.{GapNeverGrows};

/// Along a longer history a gap that is there stays, and does not grow.
pub fn gap_never_grows() -> u8
    ensures { GapNeverGrows }
{
    0
}
