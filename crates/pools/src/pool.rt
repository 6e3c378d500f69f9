//! Pools: money that is owed until it is shared out, and how it is shared among the owners, by any basis.

ghost use Rattle.std.specs.Prelude.{◌≡◌, ◌+◌, ◌≤◌, ◌-ℤ◌, ◌↔◌, IfSome, IsSome, unsigned_abs};
ghost use Rattle.std.specs.Int.NonZero.{non_zero_u32_get};
ghost use Rattle.pools.specs.Amounts.{PoolAmount};
ghost use Rattle.pools.specs.Sharing.{Shared, before, falls_to, weights};

use crate::basis::Basis;
use crate::withdrawals::Withdrawals;
use std::marker::Model;
use std::num::NonZeroU32;

/// The most that a pool holds, either way.
const MOST: u64 = 14_000_000_000;

/// A struck pool, in cents. It is not `Drop` and only `share` takes it, so what is struck has to be shared.
#[derive(Debug)]
pub struct Pool {
    amount: i64,
    ghost bounded: { unsigned_abs amount ≤ 14000000000 },
}

impl Model for Pool {
    ghost Value = { PoolAmount };

    ghost view = { λ pool. record { cents = pool.amount; bounded = pool.bounded } };
}

impl Pool {
    /// Strikes a pool of this amount; none if the amount is beyond 14,000,000,000 cents either way.
    pub fn strike(amount: i64) -> Option<Pool>
        ensures some { IsSome result ↔ (unsigned_abs amount ≤ 14000000000) }
        ensures same { IfSome result (λ pool. pool.cents ≡ amount) }
    {
        // Not `then_some`: it drops what it was given where the condition fails, and no pool can be dropped.
        if amount.unsigned_abs() <= MOST {
            Some(Pool { amount })
        } else {
            None
        }
    }
}

/// What came of a pool, in cents: the share of each owner, by place, and what the operator takes.
///
/// The shares stand in an array that the value owns, since no library allocates and callers keep what `share` returns.
#[derive(Clone, Copy, Debug, PartialEq, Eq)]
pub struct Shares {
    pub owners: [i64; 32],
    pub operator: i64,
}

/// What all owners weigh together.
fn whole_weight<B: Basis>(basis: &B, withdrawn: &Withdrawals) -> u32
    ensures exact { result ≡ before (weights B.weighs basis.now withdrawn.now.quantities) withdrawn.now.owners }
    ensures bound { result ≤ 204800000 }
{
    withdrawn
        .by_owner()
        .iter()
        .enumerate()
        .map(|(place, &quantity)| basis.weight(place, quantity))
        .sum()
}

/// A pool that is being shared among owners who weigh something: the running weight of those who have their share, and what fell to it.
#[derive(Drop)]
struct Division {
    amount: i64,
    whole: NonZeroU32,
    running: u32,
    reached: i64,
    ghost sized: { unsigned_abs amount ≤ 14000000000 },
    ghost bounded: { non_zero_u32_get whole ≤ 204800000 },
    ghost within: { running ≤ non_zero_u32_get whole },
    ghost fallen: { reached ≡ falls_to amount running (non_zero_u32_get whole) },
}

impl Division {
    /// What of the amount falls to a running weight, the remainder dropped.
    fn falls_to(&self, running: u32) -> i64
        requires { running ≤ non_zero_u32_get self.now.whole }
        ensures { result ≡ falls_to self.now.amount running (non_zero_u32_get self.now.whole) }
    {
        self.amount * i64::from(running) / i64::from(self.whole.get())
    }

    /// The share of the next owner: what falls to the running weight up to it, less what fell to the weight before it.
    fn next_share(&mut self, weight: u32) -> i64
        requires { self.old.running + weight ≤ non_zero_u32_get self.old.whole }
        ensures share { result ≡ falls_to self.old.amount (self.old.running + weight) (non_zero_u32_get self.old.whole) -ℤ self.old.reached }
        ensures running { self.new.running ≡ self.old.running + weight }
        ensures amount { self.new.amount ≡ self.old.amount }
        ensures whole { self.new.whole ≡ self.old.whole }
    {
        let running = self.running + weight;
        let reaches = self.falls_to(running);
        let share = reaches - self.reached;
        self.running = running;
        self.reached = reaches;
        share
    }
}

/// Shares a pool by the weights of a basis, which is asked for owners only. An owner gets what falls to the running weight up to it,
/// less what fell to the weight before it. Where nothing weighs, the operator takes all.
pub fn share<B: Basis>(pool: Pool, basis: &B, withdrawn: &Withdrawals) -> Shares
    ensures bounded { unsigned_abs pool.cents ≤ 14000000000 }
    ensures shared { Shared pool.cents (weights B.weighs basis.now withdrawn.now.quantities) withdrawn.now.owners result.owners result.operator }
{
    let Pool { amount } = pool;
    let mut owners = [0; 32];
    let Some(whole) = NonZeroU32::new(whole_weight(basis, withdrawn)) else {
        return Shares {
            owners,
            operator: amount,
        };
    };
    let mut division = Division {
        amount,
        whole,
        running: 0,
        reached: 0,
    };
    // Written by place: of what is written through a `zip` with `iter_mut`, nothing is known after the loop.
    for (place, &quantity) in withdrawn.by_owner().iter().enumerate() {
        owners[place] = division.next_share(basis.weight(place, quantity));
    }
    Shares {
        owners,
        operator: 0,
    }
}
