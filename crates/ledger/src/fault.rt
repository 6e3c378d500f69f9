//! Why a call on a day is refused. A file's fault lies whole inside the day's.

ghost use Rattle.ledger.specs.Faults.{day_text, day_told, of_day};
ghost use Rattle.ledger.specs.declared.fault.DayFault.TheVariants.{File as file_fault};
ghost use Rattle.std.specs.Prelude.{◌≡◌, Some};

use blocks::fault::{FileFault, Layer, Refusal};
use std::error::Error;
use std::fmt;

/// The first condition that a call meets, in the order in which they are tried.
#[derive(Clone, Copy, Debug, PartialEq, Eq)]
pub enum DayFault {
    /// A day is opened for no owner or for more than 32.
    Owners,
    /// A day is opened on a ledger of no entry or of more than 4,096.
    Length,
    /// The ledger is not the one that the day's calls wrote.
    Ledger,
    /// An hour, place or line is named that a day does not have.
    Named,
    /// The hour file is at fault.
    File(FileFault),
    /// Too few entries are unused.
    Full,
}

impl From<FileFault> for DayFault {
    ghost from_gives = { λ below fault. fault ≡ file_fault below };

    fn from(fault: FileFault) -> DayFault {
        DayFault::File(fault)
    }
}

impl fmt::Display for DayFault {
    ghost output = { λ fault. Some (day_text fault) };

    fn fmt<W: fmt::Write>(&self, f: &mut fmt::Formatter<W>) -> fmt::Result {
        f.write_str(match self {
            DayFault::Owners => "a day has 1 to 32 owners",
            DayFault::Length => "a ledger has 1 to 4,096 entries",
            DayFault::Ledger => "the ledger is not the one that the day's calls wrote",
            DayFault::Named => "a day has no such hour, place or line",
            DayFault::File(_) => "the hour file is at fault",
            DayFault::Full => "too few entries are unused",
        })
    }
}

impl Error for DayFault {}

/// A fault of the day layer, which has no block and no word.
fn of_day(number: u32) -> Refusal
    ensures { result ≡ of_day number }
{
    Refusal {
        number,
        layer: Layer::Day,
        block: 0,
        word: 0,
    }
}

impl DayFault {
    /// The number, layer, block and word of the fault.
    pub fn refusal(self) -> Refusal
        ensures { result ≡ day_told self }
    {
        match self {
            DayFault::Owners => of_day(1),
            DayFault::Length => of_day(2),
            DayFault::Ledger => of_day(3),
            DayFault::Named => of_day(4),
            DayFault::File(fault) => fault.refusal(),
            DayFault::Full => of_day(16),
        }
    }
}
