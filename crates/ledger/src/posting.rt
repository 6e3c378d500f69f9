//! Posting to a ledger.

ghost use Rattle.std.specs.Prelude.{◌≡◌, ◌≤◌, All, length, map};
ghost use Rattle.std.specs.List.{range_with_len};
ghost use Rattle.ledger.specs.Entries.{IsSmall};
ghost use Rattle.ledger.specs.Tables.{posted};

use crate::entry::Entry;
use crate::lines::difference;
use hourfile::hour_number::Hour;
use hourfile::lines::Lines;

/// Writes, place by place, what the new lines of an hour are more than those that stand.
pub(crate) fn post(entries: &mut [Entry], hour: Hour, new: &[Lines], standing: &[Lines])
    requires few { length new.now ≤ 33 }
    requires room { length entries.old ≡ length new.now }
    requires told { length standing.now ≡ length new.now }
    requires bounded { All IsSmall new.now }
    requires limited { All IsSmall standing.now }
    ensures { entries.new ≡ map (posted hour.number new.now standing.now) (range_with_len 0 (length new.now)) }
{
    // Over the slices with their index, and each entry written whole.
    // With `entries.iter_mut()` in the `zip`, which was tried, a proof knows nothing of the entries after the loop but their number.
    for (place, (new, standing)) in new.iter().zip(standing).enumerate() {
        entries[place] = Entry {
            hour: hour.number,
            place: place as u32,
            lines: difference(*new, *standing),
        };
    }
}
