//! The twelve intervals of a resource: five words each, from word 8 on.

ghost use Rattle.std.specs.Prelude.{◌<◌};
ghost use Rattle.blocks.specs.Records.{opened};
ghost use Rattle.market.specs.Views.{interval_of, reserve_interval_of};
ghost use Rattle.records.specs.Contents.{interval_at, reserve_interval_at};
ghost use Rattle.records.specs.Held.{IntervalHolds, Reads, ReadsTwelve, ReserveIntervalHolds};

use crate::figures::figure_at;
use crate::places::twelve;
use blocks::record::Record;
use market::position::{Interval, ReserveInterval};

fn interval_at(block: &Record, t: usize) -> Option<Interval>
    requires { t < 12 }
    ensures { Reads interval_of (IntervalHolds (opened block.now) t) (interval_at (opened block.now).part t) result }
{
    Some(Interval {
        price: figure_at(block, 8 + 5 * t)?,
        schedule: figure_at(block, 9 + 5 * t)?,
        reading: figure_at(block, 10 + 5 * t)?,
    })
}

fn reserve_interval_at(block: &Record, t: usize) -> Option<ReserveInterval>
    requires { t < 12 }
    ensures { Reads reserve_interval_of (ReserveIntervalHolds (opened block.now) t) (reserve_interval_at (opened block.now).part t) result }
{
    Some(ReserveInterval {
        price: figure_at(block, 11 + 5 * t)?,
        schedule: figure_at(block, 12 + 5 * t)?,
    })
}

/// All intervals, or none if one is out of range.
pub(crate) fn intervals(block: &Record) -> Option<[Interval; 12]>
    ensures { ReadsTwelve interval_of (IntervalHolds (opened block.now)) (interval_at (opened block.now).part) result }
{
    twelve(|t| interval_at(block, t))
}

/// The reserve of all intervals, in the same way.
pub(crate) fn reserve_intervals(block: &Record) -> Option<[ReserveInterval; 12]>
    ensures { ReadsTwelve reserve_interval_of (ReserveIntervalHolds (opened block.now)) (reserve_interval_at (opened block.now).part) result }
{
    twelve(|t| reserve_interval_at(block, t))
}
