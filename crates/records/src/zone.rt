//! The real-time prices of the zone: one word each, from word 3 on.

ghost use Rattle.blocks.specs.Records.{opened};
ghost use Rattle.market.specs.Views.{value_of};
ghost use Rattle.records.specs.Contents.{zone_price_at};
ghost use Rattle.records.specs.Held.{ReadsTwelve, ZonePriceHolds};

use crate::figures::figure_at;
use crate::places::twelve;
use blocks::record::Record;
use market::figures::Price;

pub(crate) fn real_time_prices(block: &Record) -> Option<[Price; 12]>
    ensures { ReadsTwelve value_of (ZonePriceHolds (opened block.now)) (zone_price_at (opened block.now).part) result }
{
    twelve(|t| figure_at(block, 3 + t))
}
