use crate::making::two_owners;
use crate::telling::{
    check_amounts, check_entries, check_settles, refusal_of, refused_by, settled, unused,
};
use blocks::fault::Refusal;
use ledger::day::OpenDay;
use ledger::entry::Entry;
use std::process::Abort;
use std::test::Fail;

// What the generator and the load without bids of two owners come to, with a reading of 4,100 and of 4,000.
const GENERATOR: [i64; 8] = [200_000, 1_680, 0, 0, 10_000, 8_000, 0, 0];

const LOAD: [i64; 8] = [0, -206_640, 0, 0, 0, 0, -18_000, 4_960];

const SMALLER_LOAD: [i64; 8] = [0, -201_600, 0, 0, 0, 0, -18_000, -80];

const NOTHING: [i64; 8] = [0; 8];

fn check_opening(rt: &impl Abort, owners: u32, ledger: &[Entry], refusal: Option<Refusal>) {
    assert_eq!(rt; refusal_of(OpenDay::open(owners, ledger)), refusal);
}

#[test]
fn owners_and_lengths_at_opening(rt: HostRuntime) -> Result<(), Fail> {
    let ledger = vec![in rt.alloc(); unused(); 4_097]?;
    assert!(rt; ledger.len() == 4_097);
    check_opening(&rt, 0, &ledger, refused_by(1));
    check_opening(&rt, 33, &ledger[0..1], refused_by(1));
    check_opening(&rt, 1, &ledger, refused_by(2));
    check_opening(&rt, 1, &ledger[0..0], refused_by(2));
    check_opening(&rt, 1, &ledger[0..1], None);
    check_opening(&rt, 32, &ledger[0..4_096], None);
    Ok(())
}

// The second file differs from the first in a reading. It is settled as differences, so that what stands is its own amounts.
#[test]
fn an_hour_settled_again(rt: HostRuntime) -> Result<(), Fail> {
    let first = two_owners(rt.alloc(), 1, 4_100)?;
    let second = two_owners(rt.alloc(), 1, 4_000)?;
    let mut ledger = [unused(); 9];
    let mut day = settled(&rt, &mut ledger, 2, &first)?;
    check_settles(&rt, &mut day, &mut ledger, &second, 3)?;
    check_amounts(&rt, &day, &ledger, 1, 1, SMALLER_LOAD)?;
    check_settles(&rt, &mut day, &mut ledger, &second, 3)?;
    check_amounts(&rt, &day, &ledger, 1, 1, SMALLER_LOAD)?;
    assert_eq!(rt; day.state(), (1, 9));
    check_entries(&rt, &ledger[0..3], 1, &[GENERATOR, LOAD, NOTHING]);
    let difference = [0, 5_040, 0, 0, 0, 0, 0, -5_040];
    check_entries(&rt, &ledger[3..6], 1, &[NOTHING, difference, NOTHING]);
    check_entries(&rt, &ledger[6..9], 1, &[NOTHING; 3]);
    Ok(())
}

#[test]
fn settling_an_hour_leaves_the_others(rt: HostRuntime) -> Result<(), Fail> {
    let early = two_owners(rt.alloc(), 1, 4_100)?;
    let late = two_owners(rt.alloc(), 24, 4_000)?;
    let mut ledger = [unused(); 7];
    let mut day = settled(&rt, &mut ledger, 2, &early)?;
    check_amounts(&rt, &day, &ledger, 24, 1, NOTHING)?;
    check_settles(&rt, &mut day, &mut ledger, &late, 3)?;
    assert_eq!(rt; day.state(), (2, 6));
    check_amounts(&rt, &day, &ledger, 1, 0, GENERATOR)?;
    check_amounts(&rt, &day, &ledger, 1, 1, LOAD)?;
    check_amounts(&rt, &day, &ledger, 24, 1, SMALLER_LOAD)?;
    check_amounts(&rt, &day, &ledger, 2, 1, NOTHING)
}
