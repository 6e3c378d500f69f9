//! Reading a day.

ghost use Rattle.ledger.specs.Days.{numbers, state_of};
ghost use Rattle.ledger.specs.Ledgers.{amount_of};
ghost use Rattle.std.specs.Prelude.{◌≡◌};

use super::OpenDay;
use crate::entry::Entry;
use crate::fault::DayFault;

impl OpenDay {
    /// The amount that stands at an hour from 1 to 24, a place up to the operator's and a line from 1 to 8.
    // Plain numbers: a reading may name any, and is refused where a day has no such hour, place or line.
    pub fn amount(
        &self,
        ledger: &[Entry],
        hour: u32,
        place: u32,
        line: u32,
    ) -> Result<i64, DayFault>
        ensures { result ≡ amount_of (numbers self.now) ledger.now hour place line }
    {
        self.numbers.amount(ledger, hour, place, line)
    }

    /// How many of the 24 hours are settled, and how many entries are used.
    pub fn state(&self) -> (u32, usize)
        ensures { result ≡ state_of (numbers self.now) }
    {
        self.numbers.state()
    }
}
