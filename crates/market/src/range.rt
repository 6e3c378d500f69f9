//! The figures of a position, and the range of each.

ghost use Rattle.market.specs.Figures.{Taken, highest, lowest};
ghost use Rattle.std.specs.Prelude.{◌≡◌};

use std::error::Error;
use std::fmt;

/// What a number stands for: an energy price or a reserve price in cents per MWh, a quantity in tenths of a MW, or a reading in kWh
/// per interval.
#[derive(Clone, Copy, Debug, PartialEq, Eq)]
pub enum Figure {
    Price,
    ReservePrice,
    Quantity,
    Reading,
}

/// A number that is no such figure.
#[derive(Clone, Copy, Debug, PartialEq, Eq)]
pub struct OutOfRange {
    pub figure: Figure,
    pub value: i32,
}

impl fmt::Display for Figure {
    fn fmt<W: fmt::Write>(&self, f: &mut fmt::Formatter<W>) -> fmt::Result {
        f.write_str(match self {
            Figure::Price => "price",
            Figure::ReservePrice => "reserve price",
            Figure::Quantity => "quantity",
            Figure::Reading => "reading",
        })
    }
}

impl fmt::Display for OutOfRange {
    fn fmt<W: fmt::Write>(&self, f: &mut fmt::Formatter<W>) -> fmt::Result {
        let OutOfRange { figure, value } = *self;
        write!(
            f,
            "{figure} {value} is outside {} to {}",
            figure.lowest(),
            figure.highest()
        )
    }
}

impl Error for OutOfRange {}

impl Figure {
    pub fn lowest(self) -> i32
        ensures { result ≡ lowest self }
    {
        match self {
            Figure::Price => -200_000,
            Figure::ReservePrice | Figure::Quantity | Figure::Reading => 0,
        }
    }

    pub fn highest(self) -> i32
        ensures { result ≡ highest self }
    {
        match self {
            Figure::Price | Figure::ReservePrice => 200_000,
            Figure::Quantity => 1_000,
            Figure::Reading => 8_400,
        }
    }

    /// The number itself if it is in range.
    pub fn check(self, value: i32) -> Result<i32, OutOfRange>
        ensures { Taken (λ v. v) self value result }
    {
        (self.lowest()..=self.highest())
            .contains(&value)
            .then_some(value)
            .ok_or(OutOfRange {
                figure: self,
                value,
            })
    }
}
