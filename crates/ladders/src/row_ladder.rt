//! Ladders that are made of rows, of one kind each.

ghost use Rattle.std.specs.Prelude.{◌≡◌, ◌<◌, ◌≤◌, length, unsigned_abs, ⊤, IfSome, MatchOption};
ghost use Rattle.ladders.specs.Rows.{AllGood, Made, most_rows, row_at, row_ladder};
ghost use Rattle.ladders.specs.RowLists.{listed};
ghost use Rattle.ladders.specs.Lawfuls.{row_lawful};
ghost use Rattle.ladders.specs.declared.rows.LadderKind.{LadderKind};

use crate::ladder::Ladder;
use crate::row_list::RowList;
use crate::rows::{HIGHEST_PRICE, LOWEST_PRICE, LadderFault, LadderKind, Row};
use std::alloc::AllocError;
use std::marker::PhantomData;

/// A kind of ladder, as a type.
// Each kind is a marker of its own, so that no bid is taken for an offer.
pub trait RowKind: Copy {
    ghost KIND: { LadderKind };

    const KIND: LadderKind;
}

/// A ladder of rows, of the kind `K`.
#[derive_where(Copy, Debug, PartialEq, Eq)]
pub struct RowLadder<K: RowKind> {
    list: RowList,
    of: PhantomData<K>,
    ghost few: { length (listed list) ≤ most_rows K.KIND },
    ghost good: { AllGood K.KIND (listed list) },
}

// By hand, since the derive is refused on a generic struct with a ghost field.
impl<K: RowKind> Clone for RowLadder<K> {
    ghost is_clone = { λ ladder copy. copy ≡ ladder };

    ghost is_infallible = { λ _. ⊤ };

    fn clone(&self) -> Result<Self, AllocError> {
        Ok(*self)
    }
}

impl<K: RowKind> RowLadder<K> {
    ghost use Rattle.ladders.specs.Offers.{rows_of};

    /// The ladder of these rows, or their first fault.
    pub fn new(rows: &[Row]) -> Result<RowLadder<K>, LadderFault>
        ensures { Made rows_of K.KIND rows.now result }
    {
        K::KIND.check(rows)?;
        let list = RowList::from_slice(rows);
        Ok(RowLadder {
            list,
            of: PhantomData,
        })
    }

    /// A row, if it is there. Its price is one that a ladder may have.
    fn row(&self, row: usize) -> Option<&Row>
        ensures there { MatchOption result (length (rows_of self.now) ≤ row) (λ _. row < length (rows_of self.now)) }
        ensures found { IfSome result (λ here. here.now ≡ row_at (rows_of self.now) row) }
        ensures near { IfSome result (λ here. unsigned_abs here.now.price ≤ 200000) }
    {
        self.list.as_slice().get(row)
    }
}

impl<K: RowKind> Ladder for RowLadder<K> {
    ghost use Rattle.ladders.specs.Offers.{rows_of};

    ghost means = { λ ladder. row_ladder K.KIND (rows_of ladder) };

    ghost lawful = { λ ladder. row_lawful K.KIND (rows_of ladder) ladder.good };

    fn rows(&self) -> usize {
        self.list.as_slice().len()
    }

    fn end(&self, row: usize) -> u32 {
        self.row(row).map_or(0, |row| row.end.unsigned_abs())
    }

    fn gain(&self, price: i32, row: usize) -> i32 {
        // No `map_or`: its closure would need clauses of its own, for what `gain` asks of a row's price.
        match self.row(row) {
            Some(row) => K::KIND.gain(price.clamp(LOWEST_PRICE, HIGHEST_PRICE), row.price),
            None => 0,
        }
    }
}
