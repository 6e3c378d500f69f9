//! Bids: ladders that gain the row's price less the price.

ghost use Rattle.ladders.specs.declared.rows.LadderKind.{LadderKind};
ghost use Rattle.ladders.specs.declared.rows.LadderKind.TheVariants.{Bid as bid_kind};

use crate::row_ladder::{RowKind, RowLadder};
use crate::rows::LadderKind;

/// The kind of the bids.
#[derive(Clone, Copy, Debug, PartialEq, Eq)]
pub struct BidKind;

impl RowKind for BidKind {
    ghost KIND = { bid_kind };

    const KIND: LadderKind = LadderKind::Bid;
}

/// A bid for energy, with up to 20 rows.
pub type Bid = RowLadder<BidKind>;
