//! The side of a position, with the ladder that it has.

ghost use Rattle.market.specs.Sides.{ladder_of, trade_of};
ghost use Rattle.std.specs.Prelude.{◌≡◌};
ghost use Rattle.market.specs.declared.side.Side.TheVariants.{Generator, DispatchableLoad, LoadWithoutBids};
ghost use Rattle.ladders.proofs.Held.{row_held};
ghost use Rattle.market.specs.SideLadderLemmas.{none_lawful};

use crate::trade::Trade;
use ladders::bid::Bid;
use ladders::ladder::Ladder;
use ladders::offer::Offer;

/// Who is settled, with the energy ladder of that side.
#[derive(Clone, Copy, Debug, PartialEq, Eq)]
pub enum Side {
    Generator(Offer),
    DispatchableLoad(Bid),
    /// It has no ladder.
    LoadWithoutBids,
}

impl Side {
    /// A generator sells, and a load buys.
    pub fn trade(&self) -> Trade
        ensures { result ≡ trade_of self.now }
    {
        match self {
            Side::Generator(_) => Trade::Sale,
            Side::DispatchableLoad(_) | Side::LoadWithoutBids => Trade::Purchase,
        }
    }
}

impl Ladder for Side {
    ghost means = { ladder_of };

    ghost lawful = { elim [
      | Generator offer ↦ row_held offer
      | DispatchableLoad bid ↦ row_held bid
      | LoadWithoutBids ↦ none_lawful
    ] };

    fn rows(&self) -> usize {
        match self {
            Side::Generator(offer) => offer.rows(),
            Side::DispatchableLoad(bid) => bid.rows(),
            Side::LoadWithoutBids => 0,
        }
    }

    fn end(&self, row: usize) -> u32 {
        match self {
            Side::Generator(offer) => offer.end(row),
            Side::DispatchableLoad(bid) => bid.end(row),
            Side::LoadWithoutBids => 0,
        }
    }

    fn gain(&self, price: i32, row: usize) -> i32 {
        match self {
            Side::Generator(offer) => offer.gain(price, row),
            Side::DispatchableLoad(bid) => bid.gain(price, row),
            Side::LoadWithoutBids => 0,
        }
    }
}
