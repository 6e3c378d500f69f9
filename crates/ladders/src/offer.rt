//! Offers: ladders that gain the price less the row's price. Offers of reserve have few rows and no price below 0.

ghost use Rattle.ladders.specs.declared.rows.LadderKind.{LadderKind};
ghost use Rattle.ladders.specs.declared.rows.LadderKind.TheVariants.{Offer as offer_kind, Reserve as reserve_kind};

use crate::row_ladder::{RowKind, RowLadder};
use crate::rows::LadderKind;

/// The kind of the offers of energy.
#[derive(Clone, Copy, Debug, PartialEq, Eq)]
pub struct OfferKind;

impl RowKind for OfferKind {
    ghost KIND = { offer_kind };

    const KIND: LadderKind = LadderKind::Offer;
}

/// The kind of the offers of reserve.
#[derive(Clone, Copy, Debug, PartialEq, Eq)]
pub struct ReserveKind;

impl RowKind for ReserveKind {
    ghost KIND = { reserve_kind };

    const KIND: LadderKind = LadderKind::Reserve;
}

/// An offer of energy, with up to 20 rows.
pub type Offer = RowLadder<OfferKind>;

/// An offer of reserve, with up to 5 rows.
pub type ReserveOffer = RowLadder<ReserveKind>;
