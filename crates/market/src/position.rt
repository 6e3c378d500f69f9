//! A position over one hour of twelve intervals: what was sold or bought a day ahead, and what then came of it.

// That an hour has twelve intervals stands in the arrays' types; each `whole_hour` states it for lemmas over these types.
ghost use Rattle.std.specs.Prelude.{◌≡◌, length};

use crate::figures::{Price, Quantity, Reading, ReservePrice};
use crate::side::Side;
use crate::trade::Trade;
use ladders::offer::ReserveOffer;

/// Five minutes of the hour: the price, what was scheduled and what the meter read.
#[derive(Clone, Copy, Debug, PartialEq, Eq)]
pub struct Interval {
    pub price: Price,
    pub schedule: Quantity,
    pub reading: Reading,
}

/// The reserve of one interval.
#[derive(Clone, Copy, Debug, PartialEq, Eq)]
pub struct ReserveInterval {
    pub price: ReservePrice,
    pub schedule: Quantity,
}

/// One class of reserve: day-ahead price and quantity, the offer, and the twelve intervals.
#[derive(Clone, Copy, Debug, PartialEq, Eq)]
pub struct ReserveClass {
    pub price: ReservePrice,
    pub quantity: Quantity,
    pub offer: ReserveOffer,
    pub intervals: [ReserveInterval; 12],
    ghost whole_hour: { length intervals ≡ 12 },
}

/// A position of a resource: day-ahead price and quantity, the twelve intervals, the side with its energy ladder, and reserve.
#[derive(Clone, Copy, Debug, PartialEq, Eq)]
pub struct Position {
    pub side: Side,
    pub price: Price,
    pub quantity: Quantity,
    pub intervals: [Interval; 12],
    pub reserve: ReserveClass,
    ghost whole_hour: { length intervals ≡ 12 },
}

/// A virtual position: a quantity that is sold or bought a day ahead and never flows.
#[derive(Clone, Copy, Debug, PartialEq, Eq)]
pub struct VirtualPosition {
    pub trade: Trade,
    pub quantity: Quantity,
}

/// The prices of the zone, which virtual positions are settled against.
#[derive(Clone, Copy, Debug, PartialEq, Eq)]
pub struct ZonePrices {
    pub day_ahead: Price,
    pub real_time: [Price; 12],
    ghost whole_hour: { length real_time ≡ 12 },
}
