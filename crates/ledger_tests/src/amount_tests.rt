use crate::making::{
    file_of, generator, header, load, resource, two_owners, virtual_position, with, with_intervals,
    with_words,
};
use crate::nobody::Nobody;
use crate::telling::{check_amounts, check_entries, settled, unused};
use blocks::block::BlockRecord;
use ledger::day::OpenDay;
use ledger::entry::Entry;
use pools::basis::{Exemption, FixedShares, Withdrawn};
use std::alloc::Global;
use std::process::Abort;
use std::test::Fail;

#[test]
fn worked_hour(rt: HostRuntime) -> Result<(), Fail> {
    let file = two_owners(rt.alloc(), 1, 4_100)?;
    let mut ledger = [unused(); 3];
    let day = settled(&rt, &mut ledger, 2, &file)?;
    let first = [200_000, 1_680, 0, 0, 10_000, 8_000, 0, 0];
    let second = [0, -206_640, 0, 0, 0, 0, -18_000, 4_960];
    check_entries(&rt, &ledger, 1, &[first, second, [0; 8]]);
    check_amounts(&rt, &day, &ledger, 1, 0, first)?;
    check_amounts(&rt, &day, &ledger, 1, 1, second)?;
    check_amounts(&rt, &day, &ledger, 1, 2, [0; 8])
}

#[test]
fn no_position(rt: HostRuntime) -> Result<(), Fail> {
    let file = file_of(rt.alloc(), &[header(12, 2, 0)])?;
    let mut ledger = [unused(); 3];
    let _day = settled(&rt, &mut ledger, 2, &file)?;
    check_entries(&rt, &ledger, 12, &[[0; 8]; 3]);
    Ok(())
}

// A load that withdraws 1 kWh in the first interval, at a price.
fn small_load(place: u8, number: i32, price: i32) -> BlockRecord {
    with_words(resource(b'N', 1, place, number), 8, &[price, 0, 1])
}

// At place 0 two times −6,000 grains, which are −1 cent each and −1 together; at place 1 two times −5,988, which are 0 each and −1
// together.
#[test]
fn rounded_once_for_a_place(rt: HostRuntime) -> Result<(), Fail> {
    let file = file_of(
        rt.alloc(),
        &[
            header(1, 2, 4),
            small_load(0, 1, 500),
            small_load(0, 2, 500),
            small_load(1, 3, 499),
            small_load(1, 4, 499),
        ],
    )?;
    let mut ledger = [unused(); 3];
    let _day = settled(&rt, &mut ledger, 2, &file)?;
    let lines = [0, -1, 0, 0, 0, 0, 0, 1];
    check_entries(&rt, &ledger, 1, &[lines, lines, [0; 8]]);
    Ok(())
}

#[test]
fn operator_takes_pools_that_nobody_weighs_for(rt: HostRuntime) -> Result<(), Fail> {
    let file = two_owners(rt.alloc(), 1, 4_100)?;
    let mut ledger = [unused(); 3];
    let mut day = OpenDay::open(2, &ledger)?;
    assert_eq!(rt; day.settle(&mut ledger, &file, &Nobody, &Nobody)?, 3);
    let expected = [
        [200_000, 1_680, 0, 0, 10_000, 8_000, 0, 0],
        [0, -206_640, 0, 0, 0, 0, 0, 0],
        [0, 0, 0, 0, 0, 0, -18_000, 4_960],
    ];
    check_entries(&rt, &ledger, 1, &expected);
    Ok(())
}

// Fixed shares of 5,000, 10,000 (capped), 1 and 0.
fn fixed_shares() -> FixedShares {
    let mut shares = [0; 32];
    shares[..3].copy_from_slice(&[5_000, 20_000, 1]);
    FixedShares { shares }
}

// Owners weigh what they withdrew, but for the one at place 1.
fn all_but_one() -> Exemption<Withdrawn> {
    let mut exempt = [false; 32];
    exempt[1] = true;
    Exemption {
        exempt,
        below: Withdrawn,
    }
}

// The generator with a reserve offer of 500 to 40 and 900 to 80, day-ahead reserve price 700 and quantity 50.
fn generator_with_reserve() -> BlockRecord {
    let offering = with_words(with(generator(5), 7, 2), 108, &[500, 40, 900, 80]);
    let scheduled = with_words(offering, 4, &[700, 50]);
    with_intervals(scheduled, [4_200, 450, 3_777, 650, 60])
}

// A dispatchable load with a bid of 5,000 to 100 and 2,000 to 300, day-ahead price 2,500 and quantity 100.
fn dispatchable_load() -> BlockRecord {
    let bidding = with_words(
        with(resource(b'L', 5, 1, 2), 6, 2),
        68,
        &[5_000, 100, 2_000, 300],
    );
    let scheduled = with_words(bidding, 2, &[2_500, 100]);
    with_intervals(scheduled, [2_001, 200, 2_050, 0, 0])
}

// An hour of four owners with every kind of position, at a zone price of 4,000 a day ahead and of 3,950 in every interval.
fn every_kind(heap: Global) -> Result<Vec<u8>, Fail> {
    let zone = [3_950; 12];
    file_of(
        heap,
        &[
            with_words(with(header(5, 4, 6), 2, 4_000), 3, &zone),
            generator_with_reserve(),
            dispatchable_load(),
            load(5, 2, 3, 4_200, 1_333),
            with(virtual_position(b'G', 5, 2, 4), 2, 37),
            with(virtual_position(b'L', 5, 1, 5), 2, 11),
            load(5, 3, 6, 4_100, 2_001),
        ],
    )
}

// The lines that each pool balances sum to nothing over all places.
fn check_balance(rt: &impl Abort, ledger: &[Entry]) {
    let mut residual = 0i64;
    let mut uplift = 0i64;
    for entry in ledger {
        let [first, second, third, fourth, fifth, sixth, seventh, eighth] = <[i64; 8]>::from(
            entry.lines,
        );
        for amount in [first, second, third, eighth] {
            residual = residual.wrapping_add(amount);
        }
        for amount in [fourth, fifth, sixth, seventh] {
            uplift = uplift.wrapping_add(amount);
        }
    }
    assert_eq!(rt; (residual, uplift), (0, 0));
}

#[test]
fn every_kind_by_two_bases(rt: HostRuntime) -> Result<(), Fail> {
    let file = every_kind(rt.alloc())?;
    let mut ledger = [unused(); 5];
    let mut day = OpenDay::open(4, &ledger)?;
    let entries = day.settle(&mut ledger, &file, &fixed_shares(), &all_but_one())?;
    assert_eq!(rt; entries, 5);
    let expected = [
        [200_000, -19_639, 0, 4_150, 10_200, 4_500, -6_286, 0],
        [-25_000, -29_215, -55, 0, 0, 10, -12_572, 0],
        [0, -67_183, 185, 0, 0, 0, -2, 15_735],
        [0, -98_449, 0, 0, 0, 0, 0, 23_621],
        [0; 8],
    ];
    check_entries(&rt, &ledger, 5, &expected);
    check_balance(&rt, &ledger);
    Ok(())
}

#[test]
fn one_owner(rt: HostRuntime) -> Result<(), Fail> {
    let file = file_of(rt.alloc(), &[header(7, 1, 1), load(7, 0, 1, -300, 8_400)])?;
    let mut ledger = [unused(); 2];
    let _day = settled(&rt, &mut ledger, 1, &file)?;
    check_entries(
        &rt,
        &ledger,
        7,
        &[[0, 30_240, 0, 0, 0, 0, 0, -30_240], [0; 8]],
    );
    Ok(())
}

// Readings of 1 and 2 kWh at 4,200: −50.4 and −100.8 cents.
#[test]
fn thirty_two_owners(rt: HostRuntime) -> Result<(), Fail> {
    let first = load(24, 0, 1, 4_200, 1);
    let last = load(24, 31, 65_535, 4_200, 2);
    let file = file_of(rt.alloc(), &[header(24, 32, 2), first, last])?;
    let mut ledger = [unused(); 33];
    let _day = settled(&rt, &mut ledger, 32, &file)?;
    let mut expected = [[0; 8]; 33];
    expected[0] = [0, -50, 0, 0, 0, 0, 0, 50];
    expected[31] = [0, -101, 0, 0, 0, 0, 0, 101];
    check_entries(&rt, &ledger, 24, &expected);
    Ok(())
}
