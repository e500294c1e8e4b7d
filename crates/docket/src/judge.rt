//! Judging one certificate.
ghost use Rattle.std.specs.Prelude.{◌≡◌};
ghost use Rattle.docket.specs.Calls.{laid, Told};

use crate::standing::Labelled;
use books::book::Book;
use certificates::fault::DocketFault;
use fields::certificate::{CertificateKind, read_certificate};
use multipliers::judge::judge_set;
use multipliers::working_table::WorkingTable;
use schedules::judge::judge_schedule;

/// The label and the figure of a certificate that is accepted, or the first check that fails. The working table is left as it was.
pub(crate) fn judge_certificate<B: Book>(
    book: &B,
    table: &mut WorkingTable,
    kind: CertificateKind,
    field: &[u8],
) -> Result<Labelled, DocketFault>
    ensures told { Told (B.Book.meaning book.now) (laid kind field.now) result }
    ensures same { table.new ≡ table.old }
{
    let certificate = read_certificate(kind, field)?;
    let figure = match kind {
        CertificateKind::Schedule => judge_schedule(book, certificate.values)?,
        CertificateKind::Multipliers => judge_set(book, table, certificate.values)?,
    };
    Ok(Labelled {
        label: certificate.label,
        figure,
    })
}
