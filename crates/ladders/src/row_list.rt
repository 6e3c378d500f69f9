//! Up to 20 rows, owned.

ghost use Rattle.std.specs.Prelude.{◌≡◌, ◌-◌, ◌≤◌, length, drop, replicate};
ghost use Rattle.ladders.specs.Rows.{no_row};

use crate::rows::Row;

// No library allocates, so the rows stand in an array beside their count. No `Model` says that they are a list: with one, a caller could
// not pass a ladder by value and use it again, as it can any `Copy` value.
#[derive(Clone, Copy, Debug, PartialEq, Eq)]
pub(crate) struct RowList {
    rows: [Row; 20],
    count: usize,
    ghost whole: { length rows ≡ 20 },
    ghost few: { count ≤ 20 },
    // so `==` compares the rows that are there
    ghost rest: { drop count rows ≡ replicate (20 - count) no_row },
}

impl RowList {
    ghost use Rattle.ladders.specs.RowLists.{listed};

    pub(crate) fn from_slice(rows: &[Row]) -> RowList
        requires { length rows.now ≤ 20 }
        ensures { listed result ≡ rows.now }
    {
        let mut all = [Row { price: 0, end: 0 }; 20];
        let count = rows.len();
        all[..count].copy_from_slice(rows);
        RowList { rows: all, count }
    }

    pub(crate) fn as_slice(&self) -> &[Row]
        ensures { result.now ≡ listed self.now }
    {
        &self.rows[..self.count]
    }
}
