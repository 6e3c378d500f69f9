//! The reserve of a resource.

ghost use Rattle.blocks.specs.Records.{opened};
ghost use Rattle.market.specs.Views.{reserve_class_of};
ghost use Rattle.records.specs.Contents.{reserve_at};
ghost use Rattle.records.specs.Held.{Reads, ReserveHolds};

use crate::figures::figure_at;
use crate::intervals::reserve_intervals;
use crate::rows::ladder;
use blocks::record::Record;
use market::position::ReserveClass;

pub(crate) fn reserve_of(block: &Record) -> Option<ReserveClass>
    ensures { Reads reserve_class_of (ReserveHolds (opened block.now)) (reserve_at (opened block.now).part) result }
{
    Some(ReserveClass {
        price: figure_at(block, 4)?,
        quantity: figure_at(block, 5)?,
        offer: ladder(block)?,
        intervals: reserve_intervals(block)?,
    })
}
