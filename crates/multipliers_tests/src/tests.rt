//! Sets judged against one column with rows added to it.
ghost use Rattle.std.specs.Prelude.{◌≡◌, false, [], ◌∷◌, pos};
ghost use Rattle.std.proofs.Math.Path.{refl};
ghost use Rattle.books.specs.declared.part.Column.{Column as TheColumn};
ghost use Rattle.books.specs.Conditions.{sound};

use added_rows::added::AddedRows;
use books::book::Book;
use books::fault::BookFault;
use books::part::{Column, Row};
use certificates::fault::DocketFault;
use listing_fields::term::Term;
use multipliers::judge::judge_set;
use multipliers::working_table::WorkingTable;
use std::process::Abort;
use std::test::Fail;

const COLUMN: Column = Column {
    lower: 0,
    upper: 5,
    price: 3,
    switch: false,
};

/// A book of one column and no rows.
#[derive(Drop)]
struct OneColumn;

impl Book for OneColumn {
    ghost meaning = { λ _. let c : TheColumn = record { lower = pos 0; upper = pos 5; price = pos 3; switch = false } in record { columns = c ∷ []; rows = [] } };

    ghost kept = { unfold sound in λ b. refl };

    fn column_count(&self) -> usize {
        1
    }

    fn column(&self, j: usize) -> Option<Column> {
        if j < 1 { Some(COLUMN) } else { None }
    }

    fn row_count(&self) -> usize {
        0
    }

    fn row(&self, _i: usize) -> Option<Row> {
        None
    }

    fn term(&self, _i: usize, _k: usize) -> Option<Term> {
        None
    }
}

/// The column, and one row with an upper side alone.
fn under(rt: &impl Abort, upper: i64, coefficient: i32) -> AddedRows<OneColumn> {
    let mut book = AddedRows::new(OneColumn);
    let term = Term {
        column: 0,
        coefficient,
    };
    assert_eq!(rt; book.add(None, Some(upper), &[term]), Ok(0));
    book
}

#[test]
fn no_rows(rt: HostRuntime) -> Result<(), Fail> {
    let mut table = WorkingTable::new(rt.alloc())?;
    assert_eq!(rt; judge_set(&OneColumn, &mut table, &[]), Ok(1_500_000));
    Ok(())
}

#[test]
fn bounds(rt: HostRuntime) -> Result<(), Fail> {
    let mut table = WorkingTable::new(rt.alloc())?;
    let book = under(&rt, 8, 2);
    assert_eq!(rt;
        judge_set(&book, &mut table, &0i64.to_be_bytes()),
        Ok(1_500_000)
    );
    assert_eq!(rt;
        judge_set(&book, &mut table, &100_000i64.to_be_bytes()),
        Ok(1_300_000)
    );
    assert_eq!(rt;
        judge_set(&book, &mut table, &150_000i64.to_be_bytes()),
        Ok(1_200_000)
    );
    assert_eq!(rt;
        judge_set(&book, &mut table, &1_000_000_000_000i64.to_be_bytes()),
        Ok(8_000_000_000_000)
    );
    Ok(())
}

#[test]
fn counts(rt: HostRuntime) -> Result<(), Fail> {
    let mut table = WorkingTable::new(rt.alloc())?;
    let book = under(&rt, 8, 2);
    let refused = Err(DocketFault::ValueCount);
    assert_eq!(rt; judge_set(&book, &mut table, &[]), refused);
    assert_eq!(rt; judge_set(&book, &mut table, &[0; 7]), refused);
    assert_eq!(rt; judge_set(&book, &mut table, &[0; 9]), refused);
    assert_eq!(rt; judge_set(&book, &mut table, &[0; 16]), refused);
    Ok(())
}

#[test]
fn sizes_before_sides(rt: HostRuntime) -> Result<(), Fail> {
    let mut table = WorkingTable::new(rt.alloc())?;
    let book = under(&rt, 8, 2);
    let large = Err(DocketFault::MultiplierBeyond { row: 0, code: 0 });
    let absent = Err(DocketFault::SideAbsent { row: 0, code: 0 });
    assert_eq!(rt;
        judge_set(&book, &mut table, &1_000_000_000_001i64.to_be_bytes()),
        large
    );
    assert_eq!(rt;
        judge_set(&book, &mut table, &(-1_000_000_000_001i64).to_be_bytes()),
        large
    );
    assert_eq!(rt;
        judge_set(&book, &mut table, &(-1_000_000_000_000i64).to_be_bytes()),
        absent
    );
    Ok(())
}

#[test]
fn row_beyond(rt: HostRuntime) -> Result<(), Fail> {
    let mut table = WorkingTable::new(rt.alloc())?;
    let book = under(&rt, 10_000_000_000_000_000, 2);
    assert_eq!(rt;
        judge_set(&book, &mut table, &115i64.to_be_bytes()),
        Ok(1_150_000_000_001_498_850)
    );
    assert_eq!(rt;
        judge_set(&book, &mut table, &116i64.to_be_bytes()),
        Err(DocketFault::RowBeyond { row: 0, code: 0 })
    );
    Ok(())
}

/// Two rows of coefficient 10^6 take the reduced cost beyond the reach, and the table is clear after that.
#[test]
fn column_beyond(rt: HostRuntime) -> Result<(), Fail> {
    let mut table = WorkingTable::new(rt.alloc())?;
    let mut book = under(&rt, 0, 1_000_000);
    let term = Term {
        column: 0,
        coefficient: 1_000_000,
    };
    assert_eq!(rt; book.add(None, Some(0), &[term]), Ok(1));
    let [a, b, c, d, e, f, g, h] = 1_000_000_000_000i64.to_be_bytes();
    assert_eq!(rt;
        judge_set(
            &book,
            &mut table,
            &[a, b, c, d, e, f, g, h, a, b, c, d, e, f, g, h],
        ),
        Err(DocketFault::ColumnBeyond { column: 0 })
    );
    assert_eq!(rt;
        judge_set(
            &book,
            &mut table,
            &[a, b, c, d, e, f, g, h, 0, 0, 0, 0, 0, 0, 0, 0],
        ),
        Ok(0)
    );
    Ok(())
}
