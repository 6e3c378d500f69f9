//! What a block may say where it stands: alone, or in a file.

ghost use Rattle.blocks.specs.Settings.{alone, first, later};
ghost use Rattle.blocks.specs.Verdicts.{may_stand, number_fits, place_fits};
ghost use Rattle.std.specs.Prelude.{◌≡◌};

use crate::kind::Kind;

/// The limits of a block: which kinds may stand here, the hours, the number of owners and of following blocks that a header may tell,
/// and the places (below a number) and position numbers (up to 65,535) that other blocks may have.
// Public fields, as the definitions name them. From and to are fields of their own, since a range type is not `Copy`; `(from..=to).contains(..)` reads them.
#[derive(Clone, Copy, Debug, PartialEq, Eq)]
pub struct Limits {
    pub headers: bool,
    pub positions: bool,
    pub hour_from: u8,
    pub hour_to: u8,
    pub owners_from: u32,
    pub owners_to: u32,
    pub places: u32,
    pub count_from: u32,
    pub count_to: u32,
    pub number_from: u32,
}

impl Limits {
    /// A lone block.
    pub fn alone() -> Limits
        ensures { result ≡ alone }
    {
        Limits {
            headers: true,
            positions: true,
            hour_from: 1,
            hour_to: 24,
            owners_from: 1,
            owners_to: 32,
            places: 32,
            count_from: 0,
            count_to: 63,
            number_from: 1,
        }
    }

    /// The first block of a file, for a day of so many owners, with so many blocks after it.
    pub fn first(owners: u32, following: u32) -> Limits
        ensures { result ≡ first owners following }
    {
        Limits {
            positions: false,
            owners_from: owners,
            owners_to: owners,
            places: owners,
            count_from: following,
            count_to: following,
            ..Limits::alone()
        }
    }

    /// A later block of a file, in the header's hour, with a position number from some number on.
    pub fn later(hour: u8, owners: u32, number_from: u32) -> Limits
        ensures { result ≡ later hour owners number_from }
    {
        Limits {
            headers: false,
            hour_from: hour,
            hour_to: hour,
            owners_from: owners,
            owners_to: owners,
            places: owners,
            count_to: 0,
            number_from,
            ..Limits::alone()
        }
    }

    /// Whether a block of this kind may stand here.
    pub(crate) fn may_stand(&self, kind: Kind) -> bool
        ensures { result ≡ may_stand self.now kind }
    {
        match kind {
            Kind::Header => self.headers,
            Kind::Resource | Kind::Virtual => self.positions,
        }
    }

    /// Whether a header may tell this number of owners, or another block have this place.
    pub(crate) fn place_fits(&self, kind: Kind, place: u32) -> bool
        ensures { result ≡ place_fits self.now kind place }
    {
        match kind {
            Kind::Header => (self.owners_from..=self.owners_to).contains(&place),
            Kind::Resource | Kind::Virtual => place < self.places,
        }
    }

    /// Whether a header may tell this number of following blocks, or another block have this position number.
    pub(crate) fn number_fits(&self, kind: Kind, number: i32) -> bool
        ensures { result ≡ number_fits self.now kind number }
    {
        let (from, to) = match kind {
            Kind::Header => (self.count_from, self.count_to),
            Kind::Resource | Kind::Virtual => (self.number_from, 65_535),
        };
        u32::try_from(number).is_ok_and(|number| (from..=to).contains(&number))
    }
}
