//! Opening a day.

ghost use Rattle.ledger.specs.Days.{numbers_in, opened};
ghost use Rattle.std.specs.Prelude.{◌≡◌};

use super::{DayNumbers, OpenDay};
use crate::entry::Entry;
use crate::fault::DayFault;
use hourfile::owners::Owners;

impl OpenDay {
    /// Opens a day for 1 to 32 owners on a ledger of 1 to 4,096 entries. None of them is used, and none is written.
    pub fn open(owners: u32, ledger: &[Entry]) -> Result<OpenDay, DayFault>
        ensures { numbers_in result ≡ opened owners ledger.now }
    {
        let owners = Owners::new(owners).ok_or(DayFault::Owners)?;
        if !(1..=4096).contains(&ledger.len()) {
            return Err(DayFault::Length);
        }
        let numbers = DayNumbers {
            owners: owners.number,
            length: ledger.len(),
            used: 0,
            settled: 0,
        };
        Ok(OpenDay { numbers })
    }
}
