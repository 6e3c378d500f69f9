//! The six lines of a position, in grains.

ghost use Rattle.std.specs.Prelude.{◌≡◌, ◌≤◌, pos, ◌≤ℤ◌, unsigned_abs};
ghost use Rattle.market.specs.Amounts.{balancing, day_ahead_energy, day_ahead_make_whole, energy_payment, imbalance, real_time_make_whole, reserve, reserve_change, reserve_loss, reserve_payment, spread, virtual_trade};
ghost use Rattle.market.specs.Views.{interval_of, position_of, reserve_class_of, reserve_interval_of, size_of, virtual_position_of, zone_prices_of};

use crate::figures::{Price, Quantity};
use crate::position::{
    Interval, Position, ReserveClass, ReserveInterval, VirtualPosition, ZonePrices,
};
use ladders::ladder::{Ladder, best_profit, lost_profit, profit};

/// Line 1, day-ahead energy: the day-ahead quantity at its price.
pub fn day_ahead_energy(position: &Position) -> i64
    ensures value { result ≡ day_ahead_energy (position_of position.now) }
    ensures bound { unsigned_abs result ≤ 240000000000 }
{
    let rate = position.side.trade().sign() * 1_200 * position.price.value;
    i64::from(rate) * i64::from(position.quantity.value)
}

/// What one interval's reading earns beyond the day-ahead quantity, as a sale sees it.
fn imbalance(quantity: Quantity, interval: &Interval) -> i64
    ensures value { result ≡ imbalance (size_of quantity) (interval_of interval.now) }
    ensures bound { unsigned_abs result ≤ 20160000000 }
{
    let beyond = 12 * interval.reading.value - 100 * quantity.value;
    i64::from(interval.price.value) * i64::from(beyond)
}

/// Line 2, balancing: what the readings earn beyond the day-ahead quantity.
pub fn balancing(position: &Position) -> i64
    ensures value { result ≡ balancing (position_of position.now) }
    ensures bound { unsigned_abs result ≤ 241920000000 }
{
    let imbalances: i64 = position
        .intervals
        .iter()
        .map(|interval| imbalance(position.quantity, interval))
        .sum();
    i64::from(position.side.trade().sign()) * imbalances
}

/// The day-ahead price of the zone less its price in one interval.
fn spread(day_ahead: Price, price: Price) -> i64
    ensures value { result ≡ spread day_ahead.value price.value }
    ensures bound { unsigned_abs result ≤ 400000 }
{
    i64::from(day_ahead.value - price.value)
}

/// Line 3, virtual: the quantity at the day-ahead price of the zone, less its price in each interval.
pub fn virtual_trade(zone: &ZonePrices, position: &VirtualPosition) -> i64
    ensures value { result ≡ virtual_trade (zone_prices_of zone.now) (virtual_position_of position.now) }
    ensures bound { unsigned_abs result ≤ 480000000000 }
{
    let spreads: i64 = zone
        .real_time
        .iter()
        .map(|price| spread(zone.day_ahead, *price))
        .sum();
    let quantity = position.trade.sign() * 100 * position.quantity.value;
    i64::from(quantity) * spreads
}

/// What one interval's change of the reserve schedule earns.
fn reserve_change(quantity: Quantity, interval: &ReserveInterval) -> i64
    ensures value { result ≡ reserve_change (size_of quantity) (reserve_interval_of interval.now) }
    ensures bound { unsigned_abs result ≤ 20000000000 }
{
    let change = interval.schedule.value - quantity.value;
    i64::from(100 * interval.price.value) * i64::from(change)
}

/// Line 4, reserve: what a class earns, its day-ahead quantity and then each interval's change of it.
pub fn reserve(class: &ReserveClass) -> i64
    ensures value { result ≡ reserve (reserve_class_of class.now) }
    ensures bound { unsigned_abs result ≤ 480000000000 }
{
    let changes: i64 = class
        .intervals
        .iter()
        .map(|interval| reserve_change(class.quantity, interval))
        .sum();
    let day_ahead = i64::from(1_200 * class.price.value) * i64::from(class.quantity.value);
    day_ahead + changes
}

/// Line 5, day-ahead make-whole: the lost profit of the day-ahead quantities, over twelve intervals. It is never negative.
pub fn day_ahead_make_whole(position: &Position) -> i64
    ensures value { result ≡ day_ahead_make_whole (position_of position.now) }
    ensures sound { pos 0 ≤ℤ result }
    ensures bound { unsigned_abs result ≤ 960000000000 }
{
    let energy = lost_profit(
        &position.side,
        position.price.value,
        position.quantity.value.unsigned_abs(),
    );
    12 * (energy + reserve_loss(&position.reserve))
}

/// The lost profit of a class's day-ahead quantity.
// As a payment's, but of the day-ahead figures: each stands under the name that its line's definition has.
fn reserve_loss(class: &ReserveClass) -> i64
    ensures value { result ≡ reserve_loss (reserve_class_of class.now) }
    ensures sound { pos 0 ≤ℤ result }
    ensures bound { unsigned_abs result ≤ 40000000000 }
{
    lost_profit(
        &class.offer,
        class.price.value,
        class.quantity.value.unsigned_abs(),
    )
}

/// The energy payment of one interval: the profit at the economic point, less the larger of the profits at schedule and reading. It
/// is never negative.
pub fn energy_payment<L: Ladder>(ladder: &L, interval: &Interval) -> i64
    ensures value { result ≡ energy_payment (L.means ladder.now) (interval_of interval.now) }
    ensures sound { pos 0 ≤ℤ result }
    ensures bound { unsigned_abs result ≤ 40000000000 }
{
    let price = interval.price.value;
    let scheduled = profit(
        ladder,
        price,
        100 * u64::from(interval.schedule.value.unsigned_abs()),
    );
    let metered = profit(
        ladder,
        price,
        12 * u64::from(interval.reading.value.unsigned_abs()),
    );
    best_profit(ladder, price) - scheduled.max(metered)
}

/// The reserve payment of one interval: the lost profit of its reserve schedule. It is never negative.
pub fn reserve_payment<L: Ladder>(ladder: &L, interval: &ReserveInterval) -> i64
    ensures value { result ≡ reserve_payment (L.means ladder.now) (reserve_interval_of interval.now) }
    ensures sound { pos 0 ≤ℤ result }
    ensures bound { unsigned_abs result ≤ 40000000000 }
{
    lost_profit(
        ladder,
        interval.price.value,
        interval.schedule.value.unsigned_abs(),
    )
}

/// Line 6, real-time make-whole: the payments of the intervals. It is never negative.
pub fn real_time_make_whole(position: &Position) -> i64
    ensures value { result ≡ real_time_make_whole (position_of position.now) }
    ensures sound { pos 0 ≤ℤ result }
    ensures bound { unsigned_abs result ≤ 960000000000 }
{
    let energy_payments: i64 = position
        .intervals
        .iter()
        .map(|interval| energy_payment(&position.side, interval))
        .sum();
    let class = &position.reserve;
    let reserve_payments: i64 = class
        .intervals
        .iter()
        .map(|interval| reserve_payment(&class.offer, interval))
        .sum();
    energy_payments + reserve_payments
}
