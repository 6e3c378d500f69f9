use crate::bands::share_by_bands;
use crate::places::by_place;
use pools::basis::{Exemption, Withdrawn};
use pools::pool::{Pool, Shares, share};
use pools::withdrawals::Withdrawals;
use std::test::Fail;

fn withdrawals(by_owner: [u32; 3]) -> Withdrawals {
    Withdrawals {
        quantities: by_place(by_owner),
        owners: 3,
    }
}

fn shares(by_owner: [i64; 3], operator: i64) -> Shares {
    Shares {
        owners: by_place(by_owner),
        operator,
    }
}

fn struck(amount: i64) -> Result<Pool, &'static str> {
    Pool::strike(amount).ok_or("beyond the largest pool")
}

fn shared_equally(amount: i64) -> Result<Shares, &'static str> {
    struck(amount).map(|pool| share(pool, &Withdrawn, &withdrawals([1, 1, 1])))
}

#[test]
fn owners_stand_at_the_first_places(rt: HostRuntime) {
    assert_eq!(rt; withdrawals([5, 0, 7]).by_owner(), [5, 0, 7].as_slice());
}

#[test]
fn two_hundred_over_three(rt: HostRuntime) -> Result<(), Fail> {
    assert_eq!(rt; shared_equally(200)?, shares([66, 67, 67], 0));
    Ok(())
}

#[test]
fn minus_one_hundred_over_three(rt: HostRuntime) -> Result<(), Fail> {
    assert_eq!(rt; shared_equally(-100)?, shares([-33, -33, -34], 0));
    Ok(())
}

#[test]
fn weightless_owners_get_nothing(rt: HostRuntime) -> Result<(), Fail> {
    let shared = share(struck(7)?, &Withdrawn, &withdrawals([0, 5, 0]));
    assert_eq!(rt; shared, shares([0, 7, 0], 0));
    Ok(())
}

#[test]
fn operator_takes_what_nobody_weighs_for(rt: HostRuntime) -> Result<(), Fail> {
    let shared = share(struck(7)?, &Withdrawn, &withdrawals([0, 0, 0]));
    assert_eq!(rt; shared, shares([0, 0, 0], 7));
    Ok(())
}

#[test]
fn exempt_owner_gets_nothing(rt: HostRuntime) -> Result<(), Fail> {
    let basis = Exemption {
        exempt: by_place([false, false, true]),
        below: Withdrawn,
    };
    let shared = share(struck(100)?, &basis, &withdrawals([1, 1, 1]));
    assert_eq!(rt; shared, shares([50, 50, 0], 0));
    Ok(())
}

// Weights 1, 5 and 20 of 26: of 1,000 falls 38 to 1, 230 to 6 and 1,000 to 26.
#[test]
fn basis_of_a_site(rt: HostRuntime) -> Result<(), Fail> {
    let shared = share_by_bands(struck(1_000)?, &withdrawals([99, 9_999, 10_000]));
    assert_eq!(rt; shared, shares([38, 192, 770], 0));
    Ok(())
}

#[test]
fn largest_pool(rt: HostRuntime) -> Result<(), Fail> {
    let expected = shares([4_666_666_666, 4_666_666_667, 4_666_666_667], 0);
    assert_eq!(rt; shared_equally(14_000_000_000)?, expected);
    Ok(())
}

#[test]
fn no_pool_beyond_the_largest(rt: HostRuntime) {
    for amount in [14_000_000_001, -14_000_000_001, i64::MAX, i64::MIN] {
        assert!(rt; shared_equally(amount).is_err(), "struck {amount}");
    }
}
