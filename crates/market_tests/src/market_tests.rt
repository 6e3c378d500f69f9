use ladders::bid::Bid;
use ladders::offer::{Offer, ReserveOffer};
use ladders::rows::Row;
use market::amounts::{
    balancing, day_ahead_energy, day_ahead_make_whole, real_time_make_whole, reserve, virtual_trade,
};
use market::cents::to_cents;
use market::figures::{Price, Quantity, Reading, ReservePrice};
use market::position::{
    Interval, Position, ReserveClass, ReserveInterval, VirtualPosition, ZonePrices,
};
use market::range::{Figure, OutOfRange};
use market::side::Side;
use market::trade::Trade;
use std::test::Fail;

#[test]
fn halves_go_away_from_zero(rt: HostRuntime) {
    assert_eq!(rt; to_cents(6_000), 1);
    assert_eq!(rt; to_cents(-6_000), -1);
    assert_eq!(rt; to_cents(5_999), 0);
    assert_eq!(rt; to_cents(-5_999), 0);
    assert_eq!(rt; to_cents(18_000), 2);
    assert_eq!(rt; to_cents(17_999), 1);
    assert_eq!(rt; to_cents(0), 0);
    assert_eq!(rt; to_cents(i64::MAX), 768_614_336_404_565);
    assert_eq!(rt; to_cents(i64::MIN), -768_614_336_404_565);
}

fn reserve_class(
    price: i32,
    quantity: i32,
    rows: &[Row],
    interval: (i32, i32),
) -> Result<ReserveClass, Fail> {
    let (interval_price, schedule) = interval;
    let interval = ReserveInterval {
        price: ReservePrice::new(interval_price)?,
        schedule: Quantity::new(schedule)?,
    };
    let offer = ReserveOffer::new(rows)?;
    Ok(ReserveClass {
        price: ReservePrice::new(price)?,
        quantity: Quantity::new(quantity)?,
        offer,
        intervals: [interval; 12],
    })
}

fn position(
    side: Side,
    price: i32,
    quantity: i32,
    interval: (i32, i32, i32),
    reserve: ReserveClass,
) -> Result<Position, Fail> {
    let (interval_price, schedule, reading) = interval;
    let interval = Interval {
        price: Price::new(interval_price)?,
        schedule: Quantity::new(schedule)?,
        reading: Reading::new(reading)?,
    };
    Ok(Position {
        side,
        price: Price::new(price)?,
        quantity: Quantity::new(quantity)?,
        intervals: [interval; 12],
        reserve,
    })
}

#[test]
fn generator_with_a_two_row_offer(rt: HostRuntime) -> Result<(), Fail> {
    let first = Row {
        price: 3_000,
        end: 400,
    };
    let second = Row {
        price: 5_000,
        end: 600,
    };
    let side = Side::Generator(Offer::new(&[first, second])?);
    let class = reserve_class(0, 0, &[], (0, 0))?;
    let generator = position(side, 4_000, 500, (4_200, 500, 4_200), class)?;
    assert_eq!(rt; to_cents(day_ahead_energy(&generator)), 200_000);
    assert_eq!(rt; to_cents(balancing(&generator)), 1_680);
    assert_eq!(rt; to_cents(reserve(&generator.reserve)), 0);
    assert_eq!(rt; to_cents(day_ahead_make_whole(&generator)), 10_000);
    assert_eq!(rt; to_cents(real_time_make_whole(&generator)), 8_000);
    Ok(())
}

// A load that bids 5,000 to 100 and 2,000 to 300, buys 200 a day ahead at 2,500 and takes 2,000 kWh an interval at 1,900. It
// sells 50 of reserve at 10 a day ahead, and in each interval 80 at 20, offered at 15 to 100.
#[test]
fn load_with_a_bid_and_reserve(rt: HostRuntime) -> Result<(), Fail> {
    let high = Row {
        price: 5_000,
        end: 100,
    };
    let low = Row {
        price: 2_000,
        end: 300,
    };
    let step = Row {
        price: 15,
        end: 100,
    };
    let side = Side::DispatchableLoad(Bid::new(&[high, low])?);
    let class = reserve_class(10, 50, &[step], (20, 80))?;
    let load = position(side, 2_500, 200, (1_900, 220, 2_000), class)?;
    assert_eq!(rt; day_ahead_energy(&load), -600_000_000);
    assert_eq!(rt; balancing(&load), -91_200_000);
    assert_eq!(rt; reserve(&load.reserve), 1_320_000);
    assert_eq!(rt; day_ahead_make_whole(&load), 60_300_000);
    assert_eq!(rt; real_time_make_whole(&load), 7_320_000);
    Ok(())
}

#[test]
fn load_without_bids_has_no_make_whole(rt: HostRuntime) -> Result<(), Fail> {
    let class = reserve_class(0, 0, &[], (0, 0))?;
    let load = position(Side::LoadWithoutBids, 0, 0, (4_200, 0, 4_100), class)?;
    assert_eq!(rt; to_cents(balancing(&load)), -206_640);
    assert_eq!(rt; day_ahead_make_whole(&load), 0);
    assert_eq!(rt; real_time_make_whole(&load), 0);
    Ok(())
}

#[test]
fn virtual_sale_and_purchase(rt: HostRuntime) -> Result<(), Fail> {
    let zone = ZonePrices {
        day_ahead: Price::new(4_000)?,
        real_time: [Price::new(4_100)?; 12],
    };
    let sale = VirtualPosition {
        trade: Trade::Sale,
        quantity: Quantity::new(30)?,
    };
    let purchase = VirtualPosition {
        trade: Trade::Purchase,
        quantity: Quantity::new(30)?,
    };
    assert_eq!(rt; virtual_trade(&zone, &sale), -3_600_000);
    assert_eq!(rt; virtual_trade(&zone, &purchase), 3_600_000);
    Ok(())
}

fn refused(figure: Figure, value: i32) -> Option<OutOfRange> {
    Some(OutOfRange { figure, value })
}

#[test]
fn figures_out_of_range(rt: HostRuntime) -> Result<(), Fail> {
    assert_eq!(rt; Price::new(200_001).err(), refused(Figure::Price, 200_001));
    assert_eq!(rt;
        Price::new(-200_001).err(),
        refused(Figure::Price, -200_001)
    );
    assert_eq!(rt;
        ReservePrice::new(-1).err(),
        refused(Figure::ReservePrice, -1)
    );
    assert_eq!(rt;
        Quantity::new(1_001).err(),
        refused(Figure::Quantity, 1_001)
    );
    assert_eq!(rt; Reading::new(8_401).err(), refused(Figure::Reading, 8_401));
    assert_eq!(rt; Reading::new(8_400)?.value, 8_400);
    assert_eq!(rt; Price::new(-200_000)?.value, -200_000);
    Ok(())
}
