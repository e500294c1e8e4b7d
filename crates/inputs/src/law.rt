//! The parts of an input are determined by its bytes.
ghost use Rattle.inputs.specs.Determined.{OneCase, OneCut};

/// An input has one case and one rest behind it, and the rest is cut into fields in one way.
pub fn parts_are_determined() -> u8
    ensures case { OneCase }
    ensures cut { OneCut }
{
    0
}
