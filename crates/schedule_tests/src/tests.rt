//! Schedules of three numbers against a listed book of three columns and two rows.
use certificates::fault::DocketFault;
use listings::book::ListedBook;
use schedules::judge::judge_schedule;
use std::alloc::Global;
use std::process::Abort;
use std::rt::HostRuntime;
use std::test::Fail;

/// A column from -5 to 5 at price 1, a switch, and a column from -20,000,000 to 20,000,000 at price 10,000,000.
/// A row of clause code 9: twice the first less three times the second, from -10 to 8. A row of code 16: less the first, at most 4.
#[rattlefmt::skip]
const LISTING: [u8; 108] = [
    10, 0, 13, 255, 255, 255, 251, 0, 0, 0, 5, 0, 0, 0, 1, 0,
    10, 0, 13, 0, 0, 0, 0, 0, 0, 0, 1, 0, 0, 0, 0, 1,
    10, 0, 13, 254, 206, 211, 0, 1, 49, 45, 0, 0, 152, 150, 128, 0,
    11, 0, 30, 9, 3, 255, 255, 255, 255, 255, 255, 255, 246, 0, 0, 0, 0, 0, 0, 0, 8, 0, 0, 0, 0, 0, 2, 0, 1, 255, 255, 255, 253,
    11, 0, 24, 16, 2, 0, 0, 0, 0, 0, 0, 0, 0, 0, 0, 0, 0, 0, 0, 0, 4, 0, 0, 255, 255, 255, 255,
];

fn judged(heap: Global, values: &[u8]) -> Result<Result<i64, DocketFault>, Fail> {
    match ListedBook::read(heap, &LISTING) {
        Ok(book) => Ok(judge_schedule(&book, values)),
        Err(_) => Err(Fail::new("no book")),
    }
}

fn check_numbers(
    rt: &impl Abort,
    heap: Global,
    numbers: [i32; 3],
    expected: Result<i64, DocketFault>,
) -> Result<(), Fail> {
    let [a0, a1, a2, a3] = numbers[0].to_be_bytes();
    let [b0, b1, b2, b3] = numbers[1].to_be_bytes();
    let [c0, c1, c2, c3] = numbers[2].to_be_bytes();
    let values = [a0, a1, a2, a3, b0, b1, b2, b3, c0, c1, c2, c3];
    assert_eq!(rt; judged(heap, &values)?, expected, "{numbers:?}");
    Ok(())
}

#[test]
fn accepted(rt: HostRuntime) -> Result<(), Fail> {
    check_numbers(&rt, rt.alloc(), [0, 0, 0], Ok(0))?;
    check_numbers(&rt, rt.alloc(), [4, 1, 2], Ok(20_000_004))?;
    check_numbers(&rt, rt.alloc(), [-3, 1, -1], Ok(-10_000_003))
}

#[test]
fn count(rt: HostRuntime) -> Result<(), Fail> {
    let refused = Err(DocketFault::ValueCount);
    assert_eq!(rt; judged(rt.alloc(), &[])?, refused);
    assert_eq!(rt; judged(rt.alloc(), &[0; 8])?, refused);
    assert_eq!(rt; judged(rt.alloc(), &[0; 11])?, refused);
    assert_eq!(rt; judged(rt.alloc(), &[0; 12])?, Ok(0));
    assert_eq!(rt; judged(rt.alloc(), &[0; 13])?, refused);
    assert_eq!(rt; judged(rt.alloc(), &[0; 16])?, refused);
    Ok(())
}

#[test]
fn limits(rt: HostRuntime) -> Result<(), Fail> {
    let first = Err(DocketFault::ColumnBroken { column: 0 });
    let second = Err(DocketFault::ColumnBroken { column: 1 });
    let third = Err(DocketFault::ColumnBroken { column: 2 });
    check_numbers(&rt, rt.alloc(), [5, 1, 0], Ok(5))?;
    check_numbers(&rt, rt.alloc(), [6, 2, 0], first)?;
    check_numbers(&rt, rt.alloc(), [-6, 0, 0], first)?;
    check_numbers(&rt, rt.alloc(), [5, 2, 0], second)?;
    check_numbers(&rt, rt.alloc(), [0, -1, 0], second)?;
    check_numbers(&rt, rt.alloc(), [5, 0, 20_000_001], third)?;
    check_numbers(&rt, rt.alloc(), [0, 0, -20_000_001], third)
}

#[test]
fn sides(rt: HostRuntime) -> Result<(), Fail> {
    let first = Err(DocketFault::RowBroken { row: 0, code: 9 });
    let second = Err(DocketFault::RowBroken { row: 1, code: 16 });
    check_numbers(&rt, rt.alloc(), [4, 0, 0], Ok(4))?;
    check_numbers(&rt, rt.alloc(), [-4, 0, 0], Ok(-4))?;
    check_numbers(&rt, rt.alloc(), [5, 0, 20_000_000], first)?;
    check_numbers(&rt, rt.alloc(), [-5, 1, 0], first)?;
    check_numbers(&rt, rt.alloc(), [-5, 0, 0], second)
}

#[test]
fn reach(rt: HostRuntime) -> Result<(), Fail> {
    let refused = Err(DocketFault::BenefitBeyond);
    check_numbers(&rt, rt.alloc(), [0, 0, 1_000_000], Ok(10_000_000_000_000))?;
    check_numbers(&rt, rt.alloc(), [0, 0, -1_000_000], Ok(-10_000_000_000_000))?;
    check_numbers(&rt, rt.alloc(), [1, 0, 1_000_000], refused)?;
    check_numbers(&rt, rt.alloc(), [-1, 0, -1_000_000], refused)?;
    check_numbers(&rt, rt.alloc(), [0, 0, 20_000_000], refused)
}
