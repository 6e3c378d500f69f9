//! Entries, of which a site's ledger is a table.

use hourfile::lines::Lines;

/// What one call added to the lines of a place in an hour, in cents. Hour and place are plain numbers, since a site's ledger may hold any.
#[derive(Clone, Copy, Debug, PartialEq, Eq)]
pub struct Entry {
    pub hour: u32,
    pub place: u32,
    pub lines: Lines,
}
