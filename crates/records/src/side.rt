//! The side of a position, by the letter in the second byte.

ghost use Rattle.blocks.specs.Records.{opened};
ghost use Rattle.blocks.specs.Words.{byte_at};
ghost use Rattle.records.specs.Contents.{trade_at};
ghost use Rattle.records.specs.Held.{Reads, SideHolds, VirtualSideHolds, Whole, side_at, side_meaning};

use crate::rows::{ENERGY, ladder};
use blocks::record::{BLOCK, Record};
use market::side::Side;
use market::trade::Trade;

fn side_letter(block: &Record) -> Option<char>
    ensures { Reads (λ letter. letter) (Whole (opened block.now)) (byte_at (opened block.now).part 1) result }
{
    let part: &[u8; BLOCK] = block.part().as_array()?;
    Some(char::from(part[1]))
}

/// The side of a resource, with its energy ladder. A load without bids has no energy rows.
pub(crate) fn resource_side(block: &Record) -> Option<Side>
    ensures { Reads side_meaning (SideHolds (opened block.now)) (side_at (opened block.now).part) result }
{
    match side_letter(block)? {
        'G' => ladder(block).map(Side::Generator),
        'L' => ladder(block).map(Side::DispatchableLoad),
        'N' if block.word(ENERGY.counted)? == 0 => Some(Side::LoadWithoutBids),
        _ => None,
    }
}

/// The trade of a virtual position.
pub(crate) fn virtual_trade(block: &Record) -> Option<Trade>
    ensures { Reads (λ trade. trade) (VirtualSideHolds (opened block.now)) (trade_at (opened block.now).part) result }
{
    match side_letter(block)? {
        'G' => Some(Trade::Sale),
        'L' => Some(Trade::Purchase),
        _ => None,
    }
}
