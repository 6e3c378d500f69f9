//! What stands at every hour and place, gathered in one pass over the used entries.

ghost use Rattle.std.specs.Prelude.{◌≡◌, ◌+◌, ◌≤◌, ◌&&◌, length, replicate, slice_index_or, IfSome, is_some};
ghost use Rattle.std.specs.List.{list_all, range_with_len};
ghost use Rattle.ledger.specs.Entries.{all_sound, is_sound, is_within, standings_within};
ghost use Rattle.ledger.specs.Tables.{Tells, table_within};
ghost use Rattle.hourfile.specs.Lines.{line_of, no_lines};

use crate::entry::Entry;
use crate::lines::{are_within, sum};
use hourfile::hour_number::Hour;
use hourfile::lines::Lines;
use hourfile::owners::Owners;

/// The hours of a day.
const HOURS: usize = 24;

/// The places of an hour: up to 32 owners, and the operator's.
const PLACES: usize = 33;

/// The lines that stand, by hour and in an hour by place.
pub(crate) type Table = [[Lines; PLACES]; HOURS];

/// No line of an entry passes this, either way.
const LINE_LIMIT: u64 = 100_000_000_000;

/// No standing amount passes this, either way.
const STANDING_LIMIT: u64 = 50_000_000_000;

/// The hour of an entry, or none where the entry may not stand in the ledger of a day.
fn sound_hour(entry: &Entry, owners: Owners) -> Option<Hour>
    ensures sound { is_some result ≡ is_sound owners.number entry.now }
    ensures same { IfSome result (λ hour. hour.number ≡ entry.now.hour) }
{
    let hour = Hour::new(entry.hour)?;
    (entry.place <= owners.number && are_within(entry.lines, LINE_LIMIT)).then_some(hour)
}

/// A table in which nothing stands.
fn empty_table() -> Table
    ensures { result ≡ replicate 24 (replicate 33 no_lines) }
{
    [[Lines::none(); PLACES]; HOURS]
}

/// What stands in the entries, or none if one of them is not sound.
fn gathered(entries: &[Entry], owners: Owners) -> Option<Table>
    requires { length entries.now ≤ 4096 }
    ensures sound { is_some result ≡ all_sound owners.number entries.now }
    ensures tells { IfSome result (λ table. Tells table entries.now) }
{
    let mut table = empty_table();
    for entry in entries {
        let hour = sound_hour(entry, owners)?;
        let (hour, place) = (hour.index(), entry.place as usize);
        table[hour][place] = sum(table[hour][place], entry.lines);
    }
    Some(table)
}

/// Whether no amount of an hour passes the limit of standing amounts.
fn hour_within(hour: &[Lines; PLACES], owners: Owners) -> bool
    ensures { result ≡ list_all (λ place. is_within 50000000000 (line_of (slice_index_or hour.now place no_lines))) (range_with_len 0 (owners.number + 1)) }
{
    hour[..=owners.number as usize]
        .iter()
        .all(|lines| are_within(*lines, STANDING_LIMIT))
}

/// Whether no amount of the table passes the limit of standing amounts.
fn table_within(table: &Table, owners: Owners) -> bool
    ensures { result ≡ table_within owners.number table.now }
{
    table.iter().all(|hour| hour_within(hour, owners))
}

/// What stands in the entries, or none if one of them is not sound or an amount that stands is too large.
pub(crate) fn standing_table(entries: &[Entry], owners: Owners) -> Option<Table>
    requires { length entries.now ≤ 4096 }
    ensures holds { is_some result ≡ (all_sound owners.number entries.now && standings_within owners.number entries.now) }
    ensures tells { IfSome result (λ table. Tells table entries.now) }
{
    let table = gathered(entries, owners)?;
    // `then_some` and `filter` were tried, and are slower: each copies the table once more.
    if table_within(&table, owners) {
        Some(table)
    } else {
        None
    }
}
