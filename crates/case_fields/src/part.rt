//! The blocks and points of a record, which stay in the file.
ghost use Rattle.case_fields.specs.Parts.{block_of, point_of, blocks_in, points_in};
ghost use Rattle.case_fields.specs.Held.{held_parts};

use fields::number::Number;
use fields::sequence::{Element, Sequence};
use std::fmt;

/// A block of an offer or a bid: up to so many kilowatts at a price.
#[derive(Clone, Copy, PartialEq, Eq, Debug)]
pub struct Block {
    /// Cents per MWh.
    pub price: i32,
    /// Kilowatts.
    pub maximum: i32,
}

impl fmt::Display for Block {
    ghost use Rattle.std.specs.Prelude.{Some};
    ghost use Rattle.case_fields.specs.PartTexts.{block_text};

    ghost output = { λ x. Some (block_text x) };

    fn fmt<W: fmt::Write>(&self, f: &mut fmt::Formatter<W>) -> fmt::Result {
        let Block { price, maximum } = *self;
        write!(f, "block of {maximum} kW at {price} cents per MWh")
    }
}

/// A point of a line's loss curve.
#[derive(Clone, Copy, PartialEq, Eq, Debug)]
pub struct Point {
    /// Kilowatts of flow.
    pub flow: i32,
    /// Kilowatts lost at that flow.
    pub loss: i32,
}

impl fmt::Display for Point {
    ghost use Rattle.std.specs.Prelude.{Some};
    ghost use Rattle.case_fields.specs.PartTexts.{point_text};

    ghost output = { λ x. Some (point_text x) };

    fn fmt<W: fmt::Write>(&self, f: &mut fmt::Formatter<W>) -> fmt::Result {
        let Point { flow, loss } = *self;
        write!(f, "point of {flow} kW losing {loss} kW")
    }
}

/// The bytes of a block, and of a point: two four-byte numbers.
const BLOCK_BYTES: usize = 8;

const POINT_BYTES: usize = 8;

/// The blocks of a record, in the bytes of the file.
pub type Blocks<'a> = Sequence<'a, Block>;

/// The points of a line, in the bytes of the file.
pub type Points<'a> = Sequence<'a, Point>;

impl Element for Block {
    ghost WIDTH = { 8 };

    const WIDTH: usize = BLOCK_BYTES;

    ghost held = { blocks_in };

    fn split(bytes: &[u8]) -> Option<(Block, &[u8])> {
        let (price, rest) = i32::split(bytes)?;
        let (maximum, rest) = i32::split(rest)?;
        Some((Block { price, maximum }, rest))
    }

    ghost laws = { held_parts block_of };
}

impl Element for Point {
    ghost WIDTH = { 8 };

    const WIDTH: usize = POINT_BYTES;

    ghost held = { points_in };

    fn split(bytes: &[u8]) -> Option<(Point, &[u8])> {
        let (flow, rest) = i32::split(bytes)?;
        let (loss, rest) = i32::split(rest)?;
        Some((Point { flow, loss }, rest))
    }

    ghost laws = { held_parts point_of };
}
