//! Rows added to a book of two columns, and refused.
ghost use Rattle.std.specs.Prelude.{◌≡◌, false, [], ◌∷◌, pos};
ghost use Rattle.std.proofs.Math.Path.{refl};
ghost use Rattle.books.specs.declared.part.Column.{Column as TheColumn};
ghost use Rattle.books.specs.Conditions.{sound};

use added_rows::added::AddedRows;
use books::book::Book;
use books::fault::BookFault;
use books::part::{Column, Row};
use listing_fields::term::Term;

const COLUMN: Column = Column {
    lower: 0,
    upper: 5,
    price: 0,
    switch: false,
};

/// A book of two columns and no rows.
#[derive(Drop)]
struct TwoColumns;

impl Book for TwoColumns {
    ghost meaning = { λ _. let c : TheColumn = record { lower = pos 0; upper = pos 5; price = pos 0; switch = false } in record { columns = c ∷ c ∷ []; rows = [] } };

    ghost kept = { unfold sound in λ b. refl };

    fn column_count(&self) -> usize {
        2
    }

    fn column(&self, j: usize) -> Option<Column> {
        (j < 2).then_some(COLUMN)
    }

    fn row_count(&self) -> usize {
        0
    }

    fn row(&self, _i: usize) -> Option<Row> {
        None
    }

    fn term(&self, _i: usize, _k: usize) -> Option<Term> {
        None
    }
}

fn term(column: u16, coefficient: i32) -> Term
    ensures { (result.column ≡ column) × (result.coefficient ≡ coefficient) }
{
    Term {
        column,
        coefficient,
    }
}

#[test]
fn added(rt: HostRuntime) {
    let mut book = AddedRows::new(TwoColumns);
    assert_eq!(rt; book.add(Some(1), None, &[term(0, 2), term(1, -3)]), Ok(0));
    let row = Row {
        code: 0,
        lower: Some(1),
        upper: None,
        terms: 2,
    };
    assert_eq!(rt; book.row(0), Some(row));
    assert_eq!(rt; book.row(1), None);
    assert_eq!(rt; book.term(0, 1), Some(term(1, -3)));
    assert_eq!(rt; book.term(0, 2), None);
}

#[test]
fn unfit_sides(rt: HostRuntime) {
    let mut book = AddedRows::new(TwoColumns);
    let refused = Err(BookFault::UnfitRow { row: 0 });
    assert_eq!(rt; book.add(None, None, &[]), refused);
    assert_eq!(rt; book.add(Some(1), Some(0), &[]), refused);
    assert_eq!(rt; book.add(Some(10_000_000_000_000_001), None, &[]), refused);
}

#[test]
fn unfit_terms(rt: HostRuntime) {
    let mut book = AddedRows::new(TwoColumns);
    let refused = Err(BookFault::UnfitRow { row: 0 });
    assert_eq!(rt; book.add(Some(0), None, &[term(1, 1), term(0, 1)]), refused);
    assert_eq!(rt; book.add(Some(0), None, &[term(2, 1)]), refused);
    assert_eq!(rt; book.add(Some(0), None, &[term(0, 0)]), refused);
}

#[test]
fn stacked(rt: HostRuntime) {
    let mut below = AddedRows::new(TwoColumns);
    assert_eq!(rt; below.add(None, Some(7), &[term(1, 1)]), Ok(0));
    let mut book = AddedRows::new(below);
    for i in 1..33usize {
        assert_eq!(rt; book.add(Some(0), None, &[]), Ok(i));
    }
    assert_eq!(rt;
        book.add(None, None, &[]),
        Err(BookFault::NoRoom { row: 33 })
    );
    assert_eq!(rt; book.row_count(), 33);
    assert_eq!(rt; book.term(0, 0), Some(term(1, 1)));
}
