//! One field cut off the front.
use fields::fault::FaultKind;
use fields::head::cut_field;
use std::process::Abort;
use std::test::Fail;

/// Checks that the input begins with a field of this tag and body, and what follows it.
fn check_cut(rt: &impl Abort, input: &[u8], tag: u8, body: &[u8], rest: &[u8]) -> Result<(), Fail> {
    let Ok((field, after)) = cut_field(input) else {
        return Err(Fail::new("no field"));
    };
    assert_eq!(rt; field.tag, tag);
    assert_eq!(rt; field.body, body);
    assert_eq!(rt; after, rest);
    Ok(())
}

/// Checks that the field passes the end.
fn check_past_end(input: &[u8]) -> Result<(), Fail> {
    match cut_field(input) {
        Err(FaultKind::PastEnd) => Ok(()),
        _ => Err(Fail::new("not past the end")),
    }
}

#[test]
fn cuts_a_field(rt: HostRuntime) -> Result<(), Fail> {
    check_past_end(&[])?;
    check_past_end(&[9])?;
    check_past_end(&[9, 0])?;
    check_past_end(&[9, 0, 1])?;
    check_cut(&rt, &[9, 0, 0], 9, &[], &[])?;
    check_cut(&rt, &[0, 0, 2, 5, 6], 0, &[5, 6], &[])?;
    check_cut(&rt, &[255, 0, 2, 5, 6, 7], 255, &[5, 6], &[7])
}

#[test]
fn takes_the_high_byte_of_the_length_first(rt: HostRuntime) -> Result<(), Fail> {
    // The tag 0, the length 256 and as many bytes, and one byte more.
    let mut input = [0u8; 260];
    input[1] = 1;
    check_cut(&rt, &input, 0, &[0; 256], &[0])?;
    check_cut(&rt, &input[0..259], 0, &[0; 256], &[])?;
    check_past_end(&input[0..258])
}
