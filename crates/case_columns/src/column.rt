//! One column and its name.
ghost use Rattle.std.specs.Prelude.{◌≡◌, true, false, negsuc, neg_ℤ, ◌≤ℤ◌};
ghost use Rattle.case_columns.specs.Columns.{minus as minus_of, column_of, free as free_of, priced as priced_of, violation as violation_of, between as between_of, weight as weight_of, switch_column, block_column, injection as injection_of, angle as angle_of};
ghost use Rattle.case_columns.specs.declared.name.Quantity.TheVariants.{BidBlock};

use crate::name::{Name, Named, Quantity};
use books::part::Column;
use case_fields::part::{Block, Point};

/// Minus a price; 32 bits hold it for every price but the lowest.
fn minus(price: i32) -> i32
    ensures value { result ≡ minus_of price }
    ensures exact { negsuc 2147483646 ≤ℤ price → result ≡ neg_ℤ price }
{
    price.saturating_neg()
}

/// A column that is counted at a node, with its limits and its price.
fn column(
    quantity: Quantity,
    place: usize,
    node: usize,
    lower: i32,
    upper: i32,
    price: i32,
) -> Named
    ensures { result ≡ column_of quantity place node lower upper price }
{
    let name = Name {
        quantity,
        place,
        start: node,
        end: 0,
        flow: 0,
        loss: 0,
    };
    let column = Column {
        lower,
        upper,
        price,
        switch: false,
    };
    Named { name, column }
}

/// 0 to 1,000,000, at no price.
pub(crate) fn free(quantity: Quantity, place: usize, node: usize) -> Named
    ensures { result ≡ free_of quantity place node }
{
    column(quantity, place, node, 0, 1_000_000, 0)
}

/// 0 to a maximum, at minus a price.
pub(crate) fn priced(
    quantity: Quantity,
    place: usize,
    node: usize,
    maximum: i32,
    price: i32,
) -> Named
    ensures { result ≡ priced_of quantity place node maximum price }
{
    column(quantity, place, node, 0, maximum, minus(price))
}

/// 0 to 1,000,000, at minus the violation price.
pub(crate) fn violation(quantity: Quantity, place: usize, price: i32) -> Named
    ensures { result ≡ violation_of quantity place price }
{
    column(quantity, place, 0, 0, 1_000_000, minus(price))
}

/// A line's Flow or Loss, between the places of two nodes.
pub(crate) fn between(
    quantity: Quantity,
    place: usize,
    start: usize,
    end: usize,
    lower: i32,
) -> Named
    ensures { result ≡ between_of quantity place start end lower }
{
    let named = column(quantity, place, start, lower, 1_000_000, 0);
    Named {
        name: Name { end, ..named.name },
        ..named
    }
}

/// A point's Weight.
pub(crate) fn weight(place: usize, point: Point) -> Named
    ensures { result ≡ weight_of place point }
{
    let named = column(Quantity::Weight, place, 0, 0, 100_000, 0);
    Named {
        name: Name {
            flow: point.flow,
            loss: point.loss,
            ..named.name
        },
        ..named
    }
}

/// A regulation offer's Switch.
pub(crate) fn switch(place: usize) -> Named
    ensures { result ≡ switch_column place }
{
    let named = column(Quantity::Switch, place, 0, 0, 1, 0);
    Named {
        column: Column {
            switch: true,
            ..named.column
        },
        ..named
    }
}

/// A block of what is sold, at minus its price.
pub(crate) fn sold(quantity: Quantity, place: usize, block: Block) -> Named
    ensures { result ≡ block_column false quantity place block }
{
    priced(quantity, place, 0, block.maximum, block.price)
}

/// A block of a bid, at its price.
pub(crate) fn bought(place: usize, block: Block) -> Named
    ensures { result ≡ block_column true BidBlock place block }
{
    column(Quantity::BidBlock, place, 0, 0, block.maximum, block.price)
}

/// A node's Injection.
pub(crate) fn injection(place: usize) -> Named
    ensures { result ≡ injection_of place }
{
    column(
        Quantity::Injection,
        place,
        place,
        -20_000_000,
        20_000_000,
        0,
    )
}

/// A node's Angle, which is nought at the reference node.
pub(crate) fn angle(place: usize, reference: usize) -> Named
    ensures { result ≡ angle_of place reference }
{
    let limit = if place == reference { 0 } else { 1_000_000 };
    column(Quantity::Angle, place, place, -limit, limit, 0)
}
