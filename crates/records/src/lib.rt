//! What the records of a file mean to the market: the position of a resource, a virtual position, the prices of the zone. A record
//! that a check of its block passed has its meaning; one that was never checked may have none.

#![tactic(auto)]

mod figures;
mod intervals;
mod places;
mod reserve;
mod rows;
mod side;
mod zone;

ghost use Rattle.blocks.specs.Records.{opened};
ghost use Rattle.market.specs.Views.{position_of, virtual_position_of, zone_prices_of};
ghost use Rattle.records.specs.Contents.{position_at, position_in, virtual_position_at, virtual_position_in, zone_prices_at, zone_prices_in};
ghost use Rattle.records.specs.Held.{PositionHeld, Reads, VirtualHeld, ZoneHeld};
ghost use Rattle.std.specs.Option.{option_map};
ghost use Rattle.std.specs.Prelude.{◌≡◌};

use crate::figures::figure_at;
use crate::intervals::intervals;
use crate::reserve::reserve_of;
use crate::side::{resource_side, virtual_trade};
use crate::zone::real_time_prices;
use blocks::kind::Kind;
use blocks::record::Record;
use market::position::{Position, VirtualPosition, ZonePrices};

/// The position that a record of a resource holds, where its side letter, figures and rows are right.
pub fn position(block: &Record) -> Option<Position>
    ensures { option_map position_of result ≡ position_in (opened block.now) }
{
    match block.kind() {
        Kind::Resource => position_at(block),
        Kind::Header | Kind::Virtual => None,
    }
}

/// The position that stands in a record, whatever its kind.
fn position_at(block: &Record) -> Option<Position>
    ensures { Reads position_of (PositionHeld (opened block.now)) (position_at (opened block.now).part) result }
{
    Some(Position {
        side: resource_side(block)?,
        price: figure_at(block, 2)?,
        quantity: figure_at(block, 3)?,
        intervals: intervals(block)?,
        reserve: reserve_of(block)?,
    })
}

/// The virtual position that a record holds, where its side letter and its quantity are right.
pub fn virtual_position(block: &Record) -> Option<VirtualPosition>
    ensures { option_map virtual_position_of result ≡ virtual_position_in (opened block.now) }
{
    match block.kind() {
        Kind::Virtual => virtual_position_at(block),
        Kind::Header | Kind::Resource => None,
    }
}

/// The virtual position that stands in a record, whatever its kind.
fn virtual_position_at(block: &Record) -> Option<VirtualPosition>
    ensures { Reads virtual_position_of (VirtualHeld (opened block.now)) (virtual_position_at (opened block.now).part) result }
{
    Some(VirtualPosition {
        trade: virtual_trade(block)?,
        quantity: figure_at(block, 2)?,
    })
}

/// The prices of the zone that a header holds, where they are in range.
pub fn zone_prices(block: &Record) -> Option<ZonePrices>
    ensures { option_map zone_prices_of result ≡ zone_prices_in (opened block.now) }
{
    match block.kind() {
        Kind::Header => zone_prices_at(block),
        Kind::Resource | Kind::Virtual => None,
    }
}

/// The prices of the zone that stand in a record, whatever its kind.
fn zone_prices_at(block: &Record) -> Option<ZonePrices>
    ensures { Reads zone_prices_of (ZoneHeld (opened block.now)) (zone_prices_at (opened block.now).part) result }
{
    Some(ZonePrices {
        day_ahead: figure_at(block, 2)?,
        real_time: real_time_prices(block)?,
    })
}
