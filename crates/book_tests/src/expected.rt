//! Books held against columns and rows that are written out.
use books::book::Book;
use books::part::{Column, Row};
use listing_fields::term::Term;
use std::process::Abort;

/// A column's limits and price, and whether it is a switch.
pub type ColumnLine = (i32, i32, i32, bool);

/// A row's code, its sides, and its terms: the number of a column, and its coefficient.
pub type RowLine = (u8, Option<i64>, Option<i64>, &'static [(u16, i32)]);

/// Checks that a book has these columns and no other.
pub fn check_columns<B: Book>(rt: &impl Abort, book: &B, columns: &[ColumnLine]) {
    assert_eq!(rt; book.column_count(), columns.len());
    for (j, (lower, upper, price, switch)) in columns.iter().enumerate() {
        let column = Column {
            lower: *lower,
            upper: *upper,
            price: *price,
            switch: *switch,
        };
        assert_eq!(rt; book.column(j), Some(column), "column {j}");
    }
    assert_eq!(rt; book.column(columns.len()), None);
}

/// Checks that a row of a book has these terms and no other.
fn check_terms<B: Book>(rt: &impl Abort, book: &B, i: usize, terms: &[(u16, i32)]) {
    for (k, (column, coefficient)) in terms.iter().enumerate() {
        let term = Term {
            column: *column,
            coefficient: *coefficient,
        };
        assert_eq!(rt; book.term(i, k), Some(term), "row {i}, term {k}");
    }
    assert_eq!(rt; book.term(i, terms.len()), None);
}

/// Checks that a book has these rows and no other.
pub fn check_rows<B: Book>(rt: &impl Abort, book: &B, rows: &[RowLine]) {
    assert_eq!(rt; book.row_count(), rows.len());
    for (i, (code, lower, upper, terms)) in rows.iter().enumerate() {
        let row = Row {
            code: *code,
            lower: *lower,
            upper: *upper,
            terms: terms.len(),
        };
        assert_eq!(rt; book.row(i), Some(row), "row {i}");
        check_terms(rt, book, i, terms);
    }
    assert_eq!(rt; book.row(rows.len()), None);
    assert_eq!(rt; book.term(rows.len(), 0), None);
}
