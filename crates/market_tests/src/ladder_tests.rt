// The profits below were worked out apart from the library, by counting each twelfth of a kWh on its own.
use ladders::bid::{Bid, BidKind};
use ladders::ladder::{Ladder, economic_point, lost_profit, profit};
use ladders::offer::{Offer, OfferKind, ReserveKind, ReserveOffer};
use ladders::row_ladder::{RowKind, RowLadder};
use ladders::rows::{LadderFault, Row};
use std::process::Abort;
use std::test::Fail;

const fn step(price: i32, end: i32) -> Row {
    Row { price, end }
}

/// A price, a quantity, the profit and the economic point there.
#[derive(Clone, Copy)]
struct Case {
    price: i32,
    quantity: u64,
    profit: i64,
    point: u32,
}

const fn at(price: i32, quantity: u64, profit: i64, point: u32) -> Case {
    Case {
        price,
        quantity,
        profit,
        point,
    }
}

fn check_cases<L: Ladder>(rt: &impl Abort, ladder: &L, cases: &[Case]) {
    for case in cases {
        assert_eq!(rt; profit(ladder, case.price, case.quantity), case.profit);
        assert_eq!(rt; economic_point(ladder, case.price), case.point);
    }
}

#[test]
fn two_row_offer(rt: HostRuntime) -> Result<(), Fail> {
    let offer = Offer::new(&[step(3_000, 400), step(5_000, 600)])?;
    let cases = [
        at(2_999, 0, 0, 0),
        at(2_999, 1, -1, 0),
        at(3_000, 40_000, 0, 400),
        at(4_000, 40_000, 40_000_000, 400),
        at(4_000, 50_000, 30_000_000, 400),
        at(4_200, 50_400, 39_680_000, 400),
        at(5_000, 60_000, 80_000_000, 600),
        at(5_001, 60_001, 80_060_000, 600),
        at(5_001, 99_999, 80_060_000, 600),
        at(200_000, 60_000, 11_780_000_000, 600),
        at(200_001, 60_000, 11_780_000_000, 600),
        at(-300_000, 7, -1_421_000, 0),
    ];
    check_cases(&rt, &offer, &cases);
    assert_eq!(rt; lost_profit(&offer, 4_000, 500), 10_000_000);
    Ok(())
}

#[test]
fn offer_with_equal_steps(rt: HostRuntime) -> Result<(), Fail> {
    let offer = Offer::new(&[
        step(-200_000, 1),
        step(-150, 7),
        step(-150, 8),
        step(0, 9),
        step(199_999, 999),
        step(200_000, 1_000),
    ])?;
    let cases = [
        at(0, 850, 20_105_000, 9),
        at(0, 950, 10_105_050, 9),
        at(-150, 801, 19_984_850, 8),
        at(-200_000, 100, 0, 1),
        at(-200_001, 101, -199_850, 1),
        at(200_000, 100_000, 200_204_000, 1_000),
        at(200_000, 100_800, 200_204_000, 1_000),
        at(199_999, 99_900, 200_104_100, 999),
        at(12, 77_777, -15_354_284_799, 9),
    ];
    check_cases(&rt, &offer, &cases);
    Ok(())
}

#[test]
fn two_row_bid(rt: HostRuntime) -> Result<(), Fail> {
    let bid = Bid::new(&[step(5_000, 100), step(2_000, 300)])?;
    let cases = [
        at(2_000, 30_000, 30_000_000, 300),
        at(2_001, 30_000, 29_970_000, 100),
        at(2_001, 10_000, 29_990_000, 100),
        at(4_999, 10_001, 7_001, 100),
        at(5_000, 1, 0, 100),
        at(6_000, 9_999, -9_999_000, 0),
        at(-1, 40_000, 90_030_000, 300),
        at(-200_000, 30_001, 6_090_000_000, 300),
    ];
    check_cases(&rt, &bid, &cases);
    Ok(())
}

#[test]
fn no_rows_earn_nothing(rt: HostRuntime) -> Result<(), Fail> {
    let reserve = ReserveOffer::new(&[])?;
    check_cases(&rt, &reserve, &[at(200_000, 100_000, 0, 0), at(0, 0, 0, 0)]);
    Ok(())
}

/// Why rows make no ladder of a kind, if they make none.
fn fault<K: RowKind>(rows: &[Row]) -> Option<LadderFault> {
    RowLadder::<K>::new(rows).err()
}

#[test]
fn first_bad_row_of_an_offer(rt: HostRuntime) {
    assert_eq!(rt;
        fault::<OfferKind>(&[step(0, 0)]),
        Some(LadderFault::BadRow(0))
    );
    assert_eq!(rt;
        fault::<OfferKind>(&[step(0, -1)]),
        Some(LadderFault::BadRow(0))
    );
    assert_eq!(rt;
        fault::<OfferKind>(&[step(0, 1), step(0, 1)]),
        Some(LadderFault::BadRow(1))
    );
    assert_eq!(rt;
        fault::<OfferKind>(&[step(5, 1), step(4, 2), step(3, 3)]),
        Some(LadderFault::BadRow(1))
    );
    assert_eq!(rt;
        fault::<OfferKind>(&[step(5, 1), step(6, 1_001), step(3, 3)]),
        Some(LadderFault::BadRow(1))
    );
    assert_eq!(rt;
        fault::<OfferKind>(&[step(200_001, 1)]),
        Some(LadderFault::BadRow(0))
    );
    assert_eq!(rt;
        fault::<OfferKind>(&[step(-200_001, 1)]),
        Some(LadderFault::BadRow(0))
    );
    assert_eq!(rt;
        fault::<OfferKind>(&[step(-200_000, 1), step(200_000, 1_000)]),
        None
    );
}

#[test]
fn first_bad_row_of_a_bid(rt: HostRuntime) {
    assert_eq!(rt;
        fault::<BidKind>(&[step(4, 1), step(5, 2)]),
        Some(LadderFault::BadRow(1))
    );
    assert_eq!(rt;
        fault::<BidKind>(&[step(5, 2), step(5, 3), step(4, 3)]),
        Some(LadderFault::BadRow(2))
    );
    assert_eq!(rt;
        fault::<BidKind>(&[step(200_000, 1), step(-200_000, 1_000)]),
        None
    );
}

#[test]
fn reserve_has_few_rows_and_no_price_below_0(rt: HostRuntime) {
    let rows = [
        step(0, 1),
        step(0, 2),
        step(0, 3),
        step(0, 4),
        step(0, 5),
        step(0, 6),
    ];
    assert_eq!(rt; fault::<ReserveKind>(&rows), Some(LadderFault::TooManyRows));
    assert_eq!(rt; fault::<ReserveKind>(&rows[0..5]), None);
    assert_eq!(rt;
        fault::<ReserveKind>(&[step(-1, 1)]),
        Some(LadderFault::BadRow(0))
    );
}

#[test]
fn twenty_rows_pass(rt: HostRuntime) {
    let mut rows = [step(7, 1); 21];
    for (row, end) in rows.iter_mut().zip(1..22) {
        *row = step(7, end);
    }
    assert_eq!(rt; fault::<OfferKind>(&rows[0..20]), None);
    assert_eq!(rt; fault::<OfferKind>(&rows), Some(LadderFault::TooManyRows));
    assert_eq!(rt; fault::<BidKind>(&rows), Some(LadderFault::TooManyRows));
}
