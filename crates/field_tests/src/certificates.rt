//! Certificates of both kinds.
use fields::certificate::{CertificateKind, read_certificate};
use std::fmt::Display;
use std::process::Abort;
use std::test::Fail;

/// Whether the tag is the kind's own, the length that the head says, how many bytes there are, and the fault's number.
#[rattlefmt::skip]
const REFUSED: [(bool, u16, usize, u8); 20] = [
    // No byte, a cut head, and a body past the end, with either tag.
    (true, 4, 0, 1), (true, 4, 1, 1), (true, 4, 2, 1), (true, 4, 3, 1), (true, 4, 6, 1),
    (true, 3, 5, 1), (true, 256, 8, 1), (false, 4, 1, 1), (false, 0, 2, 1), (false, 5, 7, 1),
    // The other tag, also with a short body and with bytes behind it.
    (false, 4, 7, 2), (false, 0, 3, 2), (false, 3, 6, 2), (false, 4, 8, 2),
    // A short body.
    (true, 0, 3, 4), (true, 3, 6, 4), (true, 3, 7, 4),
    // Bytes behind the field.
    (true, 0, 8, 4), (true, 4, 8, 4), (true, 5, 9, 4),
];

/// Checks that the input is a certificate with this label and these value bytes.
fn check_read(
    rt: &impl Abort,
    kind: CertificateKind,
    input: &[u8],
    label: u32,
    values: &[u8],
) -> Result<(), Fail> {
    let Ok(found) = read_certificate(kind, input) else {
        return Err(Fail::new("refused"));
    };
    assert_eq!(rt; found.label, label);
    assert_eq!(rt; found.values, values);
    Ok(())
}

/// Checks that the input is refused at offset 0 under this number. A failure tells what the input is.
fn check_refused(
    rt: &impl Abort,
    kind: CertificateKind,
    input: &[u8],
    number: u8,
    what: impl Display + Drop,
) -> Result<(), Fail> {
    match read_certificate(kind, input) {
        Ok(_) => Err(Fail::new(format_args!("accepted: {what}"))),
        Err(fault) => {
            assert_eq!(rt; (fault.kind.number(), fault.offset), (number, 0), "{what}");
            Ok(())
        },
    }
}

/// Checks each row, with the tag of the kind and another.
fn check_rows(rt: &impl Abort, kind: CertificateKind, own: u8, other: u8) -> Result<(), Fail> {
    for (is_own, length, size, number) in REFUSED {
        let tag = if is_own { own } else { other };
        let [high, low] = length.to_be_bytes();
        let input = [tag, high, low, 0, 0, 0, 0, 0, 0];
        assert!(rt; size <= 9);
        check_refused(
            rt,
            kind,
            &input[0..size],
            number,
            format_args!("{tag} {length} {size}"),
        )?;
    }
    Ok(())
}

#[test]
fn reads_certificates(rt: HostRuntime) -> Result<(), Fail> {
    for (kind, tag) in [
        (CertificateKind::Schedule, 20),
        (CertificateKind::Multipliers, 21),
    ] {
        check_read(&rt, kind, &[tag, 0, 4, 0, 0, 0, 0], 0, &[])?;
        check_read(
            &rt,
            kind,
            &[tag, 0, 4, 255, 255, 255, 255],
            4_294_967_295,
            &[],
        )?;
        check_read(
            &rt,
            kind,
            &[tag, 0, 12, 1, 2, 3, 4, 255, 0, 5, 6, 7, 8, 9, 128],
            16_909_060,
            &[255, 0, 5, 6, 7, 8, 9, 128],
        )?;
        check_read(
            &rt,
            kind,
            &[tag, 0, 5, 128, 0, 0, 0, 9],
            2_147_483_648,
            &[9],
        )?;
    }
    Ok(())
}

#[test]
fn refuses_certificates(rt: HostRuntime) -> Result<(), Fail> {
    check_rows(&rt, CertificateKind::Schedule, 20, 21)?;
    check_rows(&rt, CertificateKind::Multipliers, 21, 20)?;
    check_rows(&rt, CertificateKind::Schedule, 20, 15)
}
