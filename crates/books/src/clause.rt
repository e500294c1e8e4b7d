//! The constant table of clauses: the text and the row form of each code.
ghost use Rattle.std.specs.Prelude.{◌≡◌, map};
ghost use Rattle.std.specs.List.{slice_get};
ghost use Rattle.std.specs.Option.{option_map};
ghost use Rattle.books.specs.ClauseTable.{clause_at, entry_of, TableRuled};

/// What sides the row of a clause has.
#[derive(Clone, Copy, PartialEq, Eq, Debug)]
pub enum RowForm {
    /// Those that it was added with.
    AnySides,
    /// No clause has the code.
    Unused,
    /// Both, equal.
    Equal,
    /// Both, equal but for the allowance that widens them down and up.
    Widened,
    /// The lower alone.
    AtLeast,
    /// The upper alone.
    AtMost,
}

/// A clause of the rule book: its text, and the form of its row.
#[derive(Clone, Copy)]
pub struct Clause {
    pub text: &'static str,
    pub form: RowForm,
}

/// The clauses by their codes, from 0.
#[rattlefmt::skip]
const CLAUSES: [Clause; 20] = [
    Clause { text: "added row", form: RowForm::AnySides },
    Clause { text: "D.16.1.1", form: RowForm::Widened },
    Clause { text: "D.16.1.2", form: RowForm::Equal },
    Clause { text: "D.16.2.1", form: RowForm::AtLeast },
    Clause { text: "D.16.2.2", form: RowForm::AtMost },
    Clause { text: "D.16.2.3", form: RowForm::Widened },
    Clause { text: "D.16.3.1", form: RowForm::Widened },
    Clause { text: "D.16.3.2", form: RowForm::Widened },
    Clause { text: "D.16.3.3", form: RowForm::Equal },
    Clause { text: "D.15.1.2", form: RowForm::Equal },
    Clause { text: "unused", form: RowForm::Unused },
    Clause { text: "unused", form: RowForm::Unused },
    Clause { text: "D.19.1.1", form: RowForm::AtMost },
    Clause { text: "D.19.1.2", form: RowForm::AtLeast },
    Clause { text: "D.15.2.2", form: RowForm::Equal },
    Clause { text: "D.18.1.2", form: RowForm::Equal },
    Clause { text: "D.18.1.3", form: RowForm::AtMost },
    Clause { text: "D.18.1.4", form: RowForm::AtLeast },
    Clause { text: "D.18.1.5", form: RowForm::AtMost },
    Clause { text: "D.18.2.1", form: RowForm::AtLeast },
];

/// The entry of a table at a place, or none past the end.
fn entry_at(table: &[Clause], place: usize) -> Option<Clause>
    ensures { option_map entry_of result ≡ slice_get (map entry_of table.now) place }
{
    table.get(place).copied()
}

/// The clause of a code, or none past the last code.
pub fn clause_of(code: u8) -> Option<Clause>
    ensures clause { option_map entry_of result ≡ clause_at code }
    ensures ruled { TableRuled }
{
    entry_at(&CLAUSES, usize::from(code))
}
