// Settles one position of an hour from beginning to end, and prints the steps.
#![tactic(auto)]

mod hour;
mod stop;

use hour::tell_hour;
use ladders::ladder::{economic_point, profit};
use ladders::offer::{Offer, ReserveOffer};
use ladders::rows::Row;
use market::amounts::{
    balancing, day_ahead_energy, day_ahead_make_whole, real_time_make_whole, reserve, virtual_trade,
};
use market::cents::to_cents;
use market::figures::{Price, Quantity, Reading, ReservePrice};
use market::position::{
    Interval, Position, ReserveClass, ReserveInterval, VirtualPosition, ZonePrices,
};
use market::side::Side;
use market::trade::Trade;
use pools::basis::{Basis, Exemption, FixedShares, Withdrawn};
use pools::pool::{Pool, share};
use pools::withdrawals::Withdrawals;
use std::io;
use stop::{Stop, tell_stop};
use worked::examples;

const DAY_AHEAD_PRICE: i32 = 4_000;

const REAL_TIME_PRICE: i32 = 4_200;

const SCHEDULE: i32 = 500;

const READING: i32 = 4_200;

const ROWS: [Row; 2] = [
    Row {
        price: 3_000,
        end: 400,
    },
    Row {
        price: 5_000,
        end: 600,
    },
];

// A class of reserve with nothing in it.
fn no_reserve() -> Result<ReserveClass, Stop> {
    let price = ReservePrice::new(0)?;
    let quantity = Quantity::new(0)?;
    let offer = ReserveOffer::new(&[])?;
    let interval = ReserveInterval {
        price,
        schedule: quantity,
    };
    Ok(ReserveClass {
        price,
        quantity,
        offer,
        intervals: [interval; 12],
    })
}

// The generator of the tour, with the same figures in every interval.
fn generator(offer: Offer) -> Result<Position, Stop> {
    let price = Price::new(DAY_AHEAD_PRICE)?;
    let quantity = Quantity::new(SCHEDULE)?;
    let interval = Interval {
        price: Price::new(REAL_TIME_PRICE)?,
        schedule: quantity,
        reading: Reading::new(READING)?,
    };
    let reserve = no_reserve()?;
    Ok(Position {
        side: Side::Generator(offer),
        price,
        quantity,
        intervals: [interval; 12],
        reserve,
    })
}

fn no_virtual_trade() -> Result<i64, Stop> {
    let price = Price::new(0)?;
    let zone = ZonePrices {
        day_ahead: price,
        real_time: [price; 12],
    };
    let position = VirtualPosition {
        trade: Trade::Sale,
        quantity: Quantity::new(0)?,
    };
    Ok(virtual_trade(&zone, &position))
}

// Where the offer earns most, and what it earns there and where the generator was.
fn tell_profits(rt: &impl Print, offer: &Offer) -> io::Result<()> {
    let day_ahead = economic_point(offer, DAY_AHEAD_PRICE);
    println!(rt;
        "economic point at the day-ahead price {DAY_AHEAD_PRICE}: {day_ahead} tenths of a MW"
    )?;
    let real_time = economic_point(offer, REAL_TIME_PRICE);
    println!(rt;
        "economic point at the real-time price {REAL_TIME_PRICE}: {real_time} tenths of a MW"
    )?;
    let at_point = profit(offer, REAL_TIME_PRICE, 100 * u64::from(real_time));
    let at_schedule = profit(offer, REAL_TIME_PRICE, 100 * 500);
    let at_reading = profit(offer, REAL_TIME_PRICE, 12 * 4_200);
    println!(rt; "profit of one interval in grains, at the point: {at_point}")?;
    println!(rt; "profit of one interval in grains, at the schedule of {SCHEDULE}: {at_schedule}")?;
    println!(rt; "profit of one interval in grains, at the reading of {READING} kWh: {at_reading}")
}

fn tell_line(rt: &impl Print, number: u32, name: &str, grains: i64) -> io::Result<()> {
    let cents = to_cents(grains);
    println!(rt; "line {number}, {name}: {grains} grains, {cents} cents")
}

fn tell_lines(rt: &impl Print, position: &Position, virtual_grains: i64) -> io::Result<()> {
    let lines = [
        ("day-ahead energy", day_ahead_energy(position)),
        ("balancing", balancing(position)),
        ("virtual", virtual_grains),
        ("reserve", reserve(&position.reserve)),
        ("day-ahead make-whole", day_ahead_make_whole(position)),
        ("real-time make-whole", real_time_make_whole(position)),
    ];
    for (number, (name, grains)) in (1..7).zip(lines) {
        tell_line(rt, number, name, grains)?;
    }
    Ok(())
}

// The position's part in the uplift pool, in cents: its reserve and make-whole lines.
fn uplift(position: &Position) -> i64 {
    to_cents(reserve(&position.reserve))
        .saturating_add(to_cents(day_ahead_make_whole(position)))
        .saturating_add(to_cents(real_time_make_whole(position)))
}

// Three owners, who withdrew 49,200, 24,600 and 100 kWh.
fn withdrawals() -> Withdrawals {
    let mut quantities = [0; 32];
    quantities[..3].copy_from_slice(&[49_200, 24_600, 100]);
    Withdrawals {
        quantities,
        owners: 3,
    }
}

fn tell_shares<B: Basis>(rt: &impl Print, amount: i64, basis: &B, name: &str) -> io::Result<()> {
    match Pool::strike(amount) {
        Some(pool) => {
            let shares = share(pool, basis, &withdrawals());
            let [first, second, third, ..] = shares.owners;
            let operator = shares.operator;
            let sum = first
                .saturating_add(second)
                .saturating_add(third)
                .saturating_add(operator);
            println!(rt;
                "shared by {name}: {first}, {second}, {third}, operator {operator}, together {sum}"
            )
        }
        None => println!(rt; "no pool holds {amount} cents"),
    }
}

fn tell_uplift(rt: &impl Print, position: &Position) -> io::Result<()> {
    let amount = uplift(position);
    println!(rt;
        "uplift pool: {amount} cents, over three owners who withdrew 49200, 24600 and 100 kWh"
    )?;
    tell_shares(rt, amount, &Withdrawn, "withdrawn quantity")?;
    let mut shares = [0; 32];
    shares[..3].fill(1);
    tell_shares(
        rt,
        amount,
        &FixedShares { shares },
        "fixed shares of 1, 1 and 1",
    )?;
    let mut exempt = [false; 32];
    exempt[0] = true;
    let basis = Exemption {
        exempt,
        below: Withdrawn,
    };
    tell_shares(
        rt,
        amount,
        &basis,
        "withdrawn quantity with the first owner exempt",
    )
}

fn settle(rt: &impl Print) -> Result<(), Stop> {
    println!(rt; "a generator offers 3000 cents per MWh to 400 tenths of a MW and 5000 to 600")?;
    let offer = Offer::new(&ROWS)?;
    tell_profits(rt, &offer)?;
    let position = generator(offer)?;
    let virtual_grains = no_virtual_trade()?;
    tell_lines(rt, &position, virtual_grains)?;
    tell_uplift(rt, &position)?;
    Ok(())
}

// Rows that are out of step make no offer.
fn rows_turned_round(rt: &impl Print) -> Result<(), Stop> {
    let [first, second] = ROWS;
    println!(rt; "the same rows in the other order make no offer")?;
    Offer::new(&[second, first])?;
    Ok(())
}

// No meter gives such a reading.
fn reading_too_high(rt: &impl Print) -> Result<(), Stop> {
    println!(rt; "a reading of 8401 kWh is no reading of one interval")?;
    Reading::new(8_401)?;
    Ok(())
}

// A step that ends early has told what it refuses, and the tour goes on.
fn tell_end(rt: &impl Print, step: Result<(), Stop>) -> io::Result<()> {
    match step {
        Ok(()) => Ok(()),
        Err(stop) => tell_stop(rt, stop),
    }
}

fn main(rt: HostRuntime) -> io::Result<()> {
    tell_end(&rt, settle(&rt))?;
    tell_end(&rt, rows_turned_round(&rt))?;
    tell_end(&rt, reading_too_high(&rt))?;
    tell_end(&rt, tell_hour(&rt))?;
    let count = examples();
    println!(rt; "worked examples that are proved of the definitions: {count}")
}
