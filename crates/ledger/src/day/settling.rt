//! Settling the hours of an open day.

ghost use Rattle.hourfile.specs.HourAnswers.{hour_of};
ghost use Rattle.hourfile.specs.Hours.{amount};
ghost use Rattle.ledger.specs.Days.{numbers};
ghost use Rattle.ledger.specs.Settling.{SettledLaw, by_withdrawn, settle_answer, settle_day, settle_ledger};
ghost use Rattle.std.specs.Prelude.{◌≡◌, true, is_ok};

use super::OpenDay;
use crate::entry::Entry;
use crate::fault::DayFault;
use crate::posting::post;
use hourfile::hour;
use pools::basis::{Basis, Withdrawn};

impl OpenDay {
    /// Settles an hour file by an uplift basis and a residual basis: appends one entry for each place, the owners' and then the
    /// operator's, and answers how many. Each line is the new amount less what stood. Refused, day and ledger are as they were.
    pub fn settle<U: Basis, R: Basis>(
        &mut self,
        ledger: &mut [Entry],
        file: &[u8],
        uplift: &U,
        residual: &R,
    ) -> Result<usize, DayFault>
        ensures answer { result ≡ settle_answer (numbers self.old) ledger.old file.now }
        ensures day { numbers self.new ≡ settle_day (numbers self.old) ledger.old file.now }
        ensures entries { ledger.new ≡ settle_ledger (numbers self.old) ledger.old file.now (U.Basis.weighs uplift.now) (R.Basis.weighs residual.now) }
        ensures law { is_ok result ≡ true → SettledLaw (numbers self.old) (numbers self.new) ledger.old ledger.new (hour_of file.now) (amount file.now self.old.numbers.owners (U.Basis.weighs uplift.now) (R.Basis.weighs residual.now)) }
    {
        let table = self.numbers.standing(ledger)?;
        let new = hour::settle(file, self.numbers.owners(), uplift, residual)?;
        self.numbers.check_room()?;
        let used = self.numbers.used;
        let places = self.numbers.places();
        post(
            &mut ledger[used..used + places],
            new.hour,
            &new.places[..places],
            &table[new.hour.index()][..places],
        );
        self.numbers = self.numbers.settled(new.hour);
        Ok(places)
    }

    /// Settles an hour file by what the owners withdrew, the uplift pool and the residual pool alike.
    // One line over `settle`, with clauses that name the withdrawn basis.
    pub fn settle_plain(&mut self, ledger: &mut [Entry], file: &[u8]) -> Result<usize, DayFault>
        ensures answer { result ≡ settle_answer (numbers self.old) ledger.old file.now }
        ensures day { numbers self.new ≡ settle_day (numbers self.old) ledger.old file.now }
        ensures entries { ledger.new ≡ settle_ledger (numbers self.old) ledger.old file.now by_withdrawn by_withdrawn }
        ensures law { is_ok result ≡ true → SettledLaw (numbers self.old) (numbers self.new) ledger.old ledger.new (hour_of file.now) (amount file.now self.old.numbers.owners by_withdrawn by_withdrawn) }
    {
        self.settle(ledger, file, &Withdrawn, &Withdrawn)
    }
}
