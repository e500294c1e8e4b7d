//! The lines of verdicts.
use docket::run::{Answer, Call};
use docket::standing::Standing;
use docket::text::OrDash;
use docket::verdict::Verdict;
use inputs::certificate::label_of;
use std::fmt;

/// The line of a call: its kind, its label and its verdict.
#[derive(Clone, Copy, Drop)]
pub struct Line<'a> {
    pub call: Call<'a>,
    pub verdict: Verdict,
}

impl fmt::Display for Line<'_> {
    ghost use Rattle.std.specs.Prelude.{Some};
    ghost use Rattle.docket.specs.Runs.{laid_by};
    ghost use Rattle.verdict_text.specs.Texts.{line_text};

    ghost output = { λ l. Some (line_text (laid_by l.call) l.verdict) };

    fn fmt<W: fmt::Write>(&self, f: &mut fmt::Formatter<W>) -> fmt::Result {
        let kind = self.call.kind;
        let label = OrDash(label_of(self.call.field));
        let verdict = self.verdict;
        writeln!(f, "{kind} {label} {verdict}")
    }
}

/// The line of what stands.
#[derive(Clone, Copy, Drop)]
pub struct StandingLine(pub Standing);

impl fmt::Display for StandingLine {
    ghost use Rattle.std.specs.Prelude.{Some};
    ghost use Rattle.verdict_text.specs.Texts.{standing_text};

    ghost output = { λ s. Some (standing_text s.0) };

    fn fmt<W: fmt::Write>(&self, f: &mut fmt::Formatter<W>) -> fmt::Result {
        let standing = self.0;
        writeln!(f, "standing {standing}")
    }
}

/// A line for each call, in order.
#[derive(Clone, Copy, Drop)]
pub struct Lines<'a> {
    pub calls: &'a [Call<'a>],
    pub answers: &'a [Answer],
}

impl fmt::Display for Lines<'_> {
    ghost use Rattle.std.specs.Prelude.{Some};
    ghost use Rattle.verdict_text.specs.Outputs.{lines_text};

    ghost output = { λ l. Some (lines_text l.calls.now l.answers.now) };

    fn fmt<W: fmt::Write>(&self, f: &mut fmt::Formatter<W>) -> fmt::Result {
        for (call, answer) in self.calls.iter().zip(self.answers) {
            let line = Line {
                call: *call,
                verdict: answer.verdict,
            };
            write!(f, "{line}")?;
        }
        Ok(())
    }
}
