//! Tallies: what a block, or the blocks of a place, come to before they are rounded to cents.

ghost use Rattle.std.specs.Prelude.{◌≡◌, ◌≤◌, map, sum};
ghost use Rattle.hourfile.specs.Hours.{position_line, virtual_line, withdrawn_in};
ghost use Rattle.hourfile.specs.Lines.{line_of};
ghost use Rattle.hourfile.specs.Tallies.{CanAdd, InBounds, IsSum, grains_on};
ghost use Rattle.hourfile.specs.declared.lines.Line.{Line};
ghost use Rattle.market.specs.Cents.{nearest_cent};
ghost use Rattle.market.specs.Views.{interval_of, position_of, virtual_position_of, zone_prices_of};

use crate::lines::Lines;
use market::amounts::{
    balancing, day_ahead_energy, day_ahead_make_whole, real_time_make_whole, reserve, virtual_trade,
};
use market::cents::to_cents;
use market::position::{Interval, Position, VirtualPosition, ZonePrices};
use market::trade::Trade;
use std::ops::AddAssign;

/// Lines 1 to 6 in grains, and the quantity withdrawn in kWh.
#[derive(Clone, Copy, Default)]
pub(crate) struct Tally {
    pub(crate) day_ahead_energy: i64,
    pub(crate) balancing: i64,
    pub(crate) virtual_trade: i64,
    pub(crate) reserve: i64,
    pub(crate) day_ahead_make_whole: i64,
    pub(crate) real_time_make_whole: i64,
    pub(crate) withdrawn: u32,
}

impl AddAssign for Tally {
    ghost can_add_assign = { CanAdd };

    ghost add_assign_gives = { IsSum };

    fn add_assign(&mut self, other: Tally) {
        self.day_ahead_energy += other.day_ahead_energy;
        self.balancing += other.balancing;
        self.virtual_trade += other.virtual_trade;
        self.reserve += other.reserve;
        self.day_ahead_make_whole += other.day_ahead_make_whole;
        self.real_time_make_whole += other.real_time_make_whole;
        self.withdrawn += other.withdrawn;
    }
}

impl Tally {
    /// What a position of a resource comes to.
    pub(crate) fn of_position(position: &Position) -> Tally
        ensures grains { (line : Line) → grains_on result line ≡ position_line (position_of position.now) line }
        ensures withdrawn { result.withdrawn ≡ withdrawn_in (position_of position.now) }
        ensures bounds { InBounds (grains_on result) result.withdrawn }
    {
        Tally {
            day_ahead_energy: day_ahead_energy(position),
            balancing: balancing(position),
            virtual_trade: 0,
            reserve: reserve(&position.reserve),
            day_ahead_make_whole: day_ahead_make_whole(position),
            real_time_make_whole: real_time_make_whole(position),
            withdrawn: withdrawn(position),
        }
    }

    /// What a virtual position comes to.
    pub(crate) fn of_virtual(zone: &ZonePrices, position: &VirtualPosition) -> Tally
        ensures grains { (line : Line) → grains_on result line ≡ virtual_line (zone_prices_of zone.now) (virtual_position_of position.now) line }
        ensures withdrawn { result.withdrawn ≡ 0 }
        ensures bounds { InBounds (grains_on result) result.withdrawn }
    {
        Tally {
            virtual_trade: virtual_trade(zone, position),
            ..Tally::default()
        }
    }

    /// The lines in cents, each rounded once.
    // No `From`: grains are lost.
    pub(crate) fn rounded(self) -> Lines
        ensures { (line : Line) → line_of result line ≡ nearest_cent (grains_on self line) }
    {
        Lines {
            day_ahead_energy: to_cents(self.day_ahead_energy),
            balancing: to_cents(self.balancing),
            virtual_trade: to_cents(self.virtual_trade),
            reserve: to_cents(self.reserve),
            day_ahead_make_whole: to_cents(self.day_ahead_make_whole),
            real_time_make_whole: to_cents(self.real_time_make_whole),
            ..Lines::none()
        }
    }
}

/// What the meter read over an interval.
fn reading(interval: &Interval) -> u32
    ensures value { result ≡ (interval_of interval.now).reading }
    ensures bound { result ≤ 8400 }
{
    interval.reading.value.unsigned_abs()
}

/// The readings of the hour together.
fn readings(position: &Position) -> u32
    ensures value { result ≡ sum (map (λ t. t.reading) (position_of position.now).intervals) }
    ensures bound { result ≤ 100800 }
{
    position.intervals.iter().map(reading).sum()
}

/// What a position withdraws: the readings of a load.
fn withdrawn(position: &Position) -> u32
    ensures value { result ≡ withdrawn_in (position_of position.now) }
    ensures bound { result ≤ 100800 }
{
    match position.side.trade() {
        Trade::Sale => 0,
        Trade::Purchase => readings(position),
    }
}
