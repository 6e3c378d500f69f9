//! What an hour comes to.

ghost use Rattle.std.specs.Prelude.{◌≡◌, length};

use crate::hour_number::Hour;
use crate::lines::Lines;

/// The lines of an hour by place: those of the owners, then the operator's, then nothing.
// A library has fixed memory: room for the places of any number of owners.
#[derive(Clone, Copy, Debug, PartialEq, Eq)]
pub struct HourLines {
    pub hour: Hour,
    pub places: [Lines; 33],
    ghost whole: { length places ≡ 33 },
}
