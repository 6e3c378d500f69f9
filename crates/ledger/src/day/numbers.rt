//! What the numbers of a day say, in whatever stage it is.

ghost use Rattle.std.specs.Prelude.{◌≡◌, ◌+◌, ◌≤◌, IfOk};
ghost use Rattle.blocks.specs.Lone.{verdict_in};
ghost use Rattle.ledger.specs.Days.{plain, state_of};
ghost use Rattle.ledger.specs.Ledgers.{amount_of, ledger_verdict, used_of};
ghost use Rattle.ledger.specs.Numbers.{marked, places as places_of};
ghost use Rattle.ledger.specs.Settling.{room_verdict, settled_day};
ghost use Rattle.ledger.specs.Tables.{Tells};

use super::DayNumbers;
use crate::entry::Entry;
use crate::fault::DayFault;
use crate::table::{Table, standing_table};
use hourfile::hour_number::Hour;
use hourfile::lines::Line;
use hourfile::owners::Owners;

/// The mask with an hour settled.
fn mark(mask: u32, hour: Hour) -> u32
    ensures { result ≡ marked mask hour.number }
{
    mask | (1 << hour.index())
}

impl DayNumbers {
    /// How many owners share the day.
    pub(super) fn owners(&self) -> Owners
        ensures { result.number ≡ self.now.owners }
    {
        Owners {
            number: self.owners,
        }
    }

    /// One place for each owner, and the operator's.
    pub(super) fn places(&self) -> usize
        ensures { result ≡ places_of (plain self.now) }
    {
        self.owners as usize + 1
    }

    /// What stands in the ledger, which has to be the one that the day's calls wrote.
    pub(super) fn standing(&self, ledger: &[Entry]) -> Result<Table, DayFault>
        ensures verdict { verdict_in result ≡ ledger_verdict (plain self.now) ledger.now }
        ensures tells { IfOk result (λ table. Tells table (used_of (plain self.now) ledger.now)) }
    {
        if ledger.len() != self.length {
            return Err(DayFault::Ledger);
        }
        // `ok_or` was tried, and is slower: it copies the table once more.
        match standing_table(&ledger[..self.used], self.owners()) {
            Some(table) => Ok(table),
            None => Err(DayFault::Ledger),
        }
    }

    /// Whether one entry for each place fits behind the used ones.
    pub(super) fn check_room(&self) -> Result<(), DayFault>
        ensures { result ≡ room_verdict (plain self.now) }
    {
        if self.used + self.places() <= self.length {
            Ok(())
        } else {
            Err(DayFault::Full)
        }
    }

    /// The numbers after an hour is settled.
    pub(super) fn settled(&self, hour: Hour) -> DayNumbers
        requires { self.now.used + places_of (plain self.now) ≤ self.now.length }
        ensures { plain result ≡ settled_day (plain self.now) hour.number }
    {
        DayNumbers {
            owners: self.owners,
            length: self.length,
            used: self.used + self.places(),
            settled: mark(self.settled, hour),
        }
    }

    /// The amount that stands at an hour, a place and a line.
    pub(super) fn amount(
        &self,
        ledger: &[Entry],
        hour: u32,
        place: u32,
        line: u32,
    ) -> Result<i64, DayFault>
        ensures { result ≡ amount_of (plain self.now) ledger.now hour place line }
    {
        let table = self.standing(ledger)?;
        match (Hour::new(hour), Line::numbered(line)) {
            (Some(hour), Some(line)) if place <= self.owners => {
                Ok(table[hour.index()][place as usize].on(line))
            }
            _ => Err(DayFault::Named),
        }
    }

    /// How many hours are settled, and how many entries are used.
    pub(super) fn state(&self) -> (u32, usize)
        ensures { result ≡ state_of (plain self.now) }
    {
        (self.settled.count_ones(), self.used)
    }
}
