//! Figures that carry their range in their type.

ghost use Rattle.std.specs.Prelude.{◌≡◌, ◌≤ℤ◌, ⊤};
ghost use Rattle.market.specs.Figures.{Taken, highest, lowest};
ghost use Rattle.market.specs.declared.range.Figure.{Figure};
ghost use Rattle.market.specs.declared.range.Figure.TheVariants.{Price as price_figure, Quantity as quantity_figure, Reading as reading_figure, ReservePrice as reserve_price_figure};

use crate::range::{Figure, OutOfRange};
use std::alloc::AllocError;
use std::marker::PhantomData;

/// A kind of figure, as a type.
// Each kind is a marker of its own, so that no number of one kind is taken for another.
pub trait FigureKind: Copy {
    ghost FIGURE: { Figure };

    const FIGURE: Figure;
}

/// A number in the range of its kind of figure.
#[derive_where(Copy, Debug, PartialEq, Eq)]
pub struct Ranged<K: FigureKind> {
    pub value: i32,
    pub of: PhantomData<K>,
    ghost low: { lowest K.FIGURE ≤ℤ value },
    ghost high: { value ≤ℤ highest K.FIGURE },
}

/// A price of energy, in cents per MWh.
pub type Price = Ranged<PriceKind>;

/// A price of reserve, in cents per MWh.
pub type ReservePrice = Ranged<ReservePriceKind>;

/// A scheduled quantity, in tenths of a MW.
pub type Quantity = Ranged<QuantityKind>;

/// What a meter read over one interval, in kWh per interval.
pub type Reading = Ranged<ReadingKind>;

// Written out, since `Clone` is not derived for a generic struct with a ghost field.
impl<K: FigureKind> Clone for Ranged<K> {
    ghost is_clone = { λ figure copy. copy ≡ figure };

    ghost is_infallible = { λ _. ⊤ };

    fn clone(&self) -> Result<Self, AllocError> {
        Ok(*self)
    }
}

impl<K: FigureKind> Ranged<K> {
    /// The figure of this number if it is in range.
    pub fn new(value: i32) -> Result<Ranged<K>, OutOfRange>
        ensures { Taken (λ r. r.value) K.FIGURE value result }
    {
        let value = K::FIGURE.check(value)?;
        Ok(Ranged {
            value,
            of: PhantomData,
        })
    }
}

/// The kind of a price of energy.
#[derive(Clone, Copy, Debug, PartialEq, Eq)]
pub struct PriceKind;

impl FigureKind for PriceKind {
    ghost FIGURE = { price_figure };

    const FIGURE: Figure = Figure::Price;
}

/// The kind of a price of reserve.
#[derive(Clone, Copy, Debug, PartialEq, Eq)]
pub struct ReservePriceKind;

impl FigureKind for ReservePriceKind {
    ghost FIGURE = { reserve_price_figure };

    const FIGURE: Figure = Figure::ReservePrice;
}

/// The kind of a quantity.
#[derive(Clone, Copy, Debug, PartialEq, Eq)]
pub struct QuantityKind;

impl FigureKind for QuantityKind {
    ghost FIGURE = { quantity_figure };

    const FIGURE: Figure = Figure::Quantity;
}

/// The kind of a reading.
#[derive(Clone, Copy, Debug, PartialEq, Eq)]
pub struct ReadingKind;

impl FigureKind for ReadingKind {
    ghost FIGURE = { reading_figure };

    const FIGURE: Figure = Figure::Reading;
}
