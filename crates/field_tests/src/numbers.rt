//! Numbers of one, two, four and eight bytes.
use fields::number::Number;
use std::fmt::Debug;
use std::process::Abort;
use std::test::Fail;

/// Two bytes and one more, and the number that the two are.
const TWO: [([u8; 3], u16); 5] = [
    ([0, 0, 9], 0),
    ([0, 1, 9], 1),
    ([1, 2, 9], 258),
    ([128, 0, 9], 32_768),
    ([255, 255, 9], 65_535),
];

/// Four bytes and one more, and the unsigned and the signed number that the four are.
const FOUR: [([u8; 5], u32, i32); 6] = [
    ([0, 0, 0, 0, 9], 0, 0),
    ([0, 0, 0, 1, 9], 1, 1),
    ([1, 2, 3, 4, 9], 16_909_060, 16_909_060),
    ([127, 255, 255, 255, 9], 2_147_483_647, 2_147_483_647),
    ([128, 0, 0, 0, 9], 2_147_483_648, -2_147_483_648),
    ([255, 255, 255, 255, 9], 4_294_967_295, -1),
];

/// Eight bytes and one more, and the signed number that the eight are.
const EIGHT: [([u8; 9], i64); 6] = [
    ([0, 0, 0, 0, 0, 0, 0, 0, 9], 0),
    ([0, 0, 0, 0, 0, 0, 0, 1, 9], 1),
    ([1, 2, 3, 4, 5, 6, 7, 8, 9], 72_623_859_790_382_856),
    (
        [127, 255, 255, 255, 255, 255, 255, 255, 9],
        9_223_372_036_854_775_807,
    ),
    ([128, 0, 0, 0, 0, 0, 0, 0, 9], -9_223_372_036_854_775_808),
    ([255, 255, 255, 255, 255, 255, 255, 255, 9], -1),
];

/// Checks that this number is split off and one byte, a 9, is left.
fn check_split<N: PartialEq + Debug + Drop>(
    rt: &impl Abort,
    split: Option<(N, &[u8])>,
    number: N,
) -> Result<(), Fail> {
    let Some((found, rest)) = split else {
        return Err(Fail::new("no number"));
    };
    assert_eq!(rt; found, number);
    assert_eq!(rt; rest, [9].as_slice());
    Ok(())
}

#[test]
fn splits_short_numbers(rt: HostRuntime) -> Result<(), Fail> {
    assert!(rt; u8::split(&[]).is_none());
    check_split(&rt, u8::split(&[255, 9]), 255)?;
    for (bytes, number) in TWO {
        check_split(&rt, u16::split(&bytes), number)?;
        assert!(rt; u16::split(&bytes[0..1]).is_none());
    }
    Ok(())
}

#[test]
fn splits_numbers_of_four_bytes(rt: HostRuntime) -> Result<(), Fail> {
    for (bytes, unsigned, signed) in FOUR {
        check_split(&rt, u32::split(&bytes), unsigned)?;
        assert!(rt; u32::split(&bytes[0..3]).is_none());
        check_split(&rt, i32::split(&bytes), signed)?;
        assert!(rt; i32::split(&bytes[0..3]).is_none());
    }
    Ok(())
}

#[test]
fn splits_numbers_of_eight_bytes(rt: HostRuntime) -> Result<(), Fail> {
    for (bytes, number) in EIGHT {
        check_split(&rt, i64::split(&bytes), number)?;
        assert!(rt; i64::split(&bytes[0..7]).is_none());
    }
    Ok(())
}
