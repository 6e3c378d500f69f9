//! The rows of a resource, and the ladders that they make.

ghost use Rattle.std.specs.Prelude.{◌≡◌, ◌+◌, ◌*◌, ◌<◌, pos};
ghost use Rattle.blocks.specs.Words.{word_at};
ghost use Rattle.blocks.specs.Records.{opened};
ghost use Rattle.blocks.specs.Verdicts.{row_of};
ghost use Rattle.ladders.specs.Offers.{rows_of};
ghost use Rattle.records.specs.Held.{Counts, Reads, RowsHold, Whole, place_of, rows_at};

use crate::places::fill;
use blocks::record::Record;
use ladders::row_ladder::{RowKind, RowLadder};
use ladders::rows::{LadderKind, Row};

/// Where the rows of a ladder stand: the word that counts them, the word that they begin at, and the most that there may be.
#[derive(Clone, Copy)]
pub(crate) struct RowPlace {
    pub(crate) counted: usize,
    from: usize,
    most: usize,
}

/// Where the energy rows stand.
pub(crate) const ENERGY: RowPlace = RowPlace {
    counted: 6,
    from: 68,
    most: 20,
};

/// Where the reserve rows stand.
const RESERVE: RowPlace = RowPlace {
    counted: 7,
    from: 108,
    most: 5,
};

impl RowPlace {
    /// Where the rows of a kind of ladder stand.
    fn of(kind: LadderKind) -> RowPlace
        ensures { result ≡ place_of kind }
    {
        match kind {
            LadderKind::Offer | LadderKind::Bid => ENERGY,
            LadderKind::Reserve => RESERVE,
        }
    }
}

/// How many rows are counted, if there may be so many.
fn row_count(block: &Record, place: RowPlace) -> Option<usize>
    requires { place.counted < 128 }
    ensures { Reads (λ count. pos count) (Counts place.most (opened block.now) place.counted) (word_at (opened block.now).part place.counted) result }
{
    let count = usize::try_from(block.word(place.counted)?).ok()?;
    (count <= place.most).then_some(count)
}

/// A row, from its two words.
fn row_at(block: &Record, from: usize, k: usize) -> Option<Row>
    requires { from + 2 * k + 1 < 128 }
    ensures { Reads (λ row. row) (Whole (opened block.now)) (row_of (opened block.now).part from k) result }
{
    Some(Row {
        price: block.word(from + 2 * k)?,
        end: block.word(from + 2 * k + 1)?,
    })
}

/// The ladder that the rows of its kind make, where they are right.
pub(crate) fn ladder<K: RowKind>(block: &Record) -> Option<RowLadder<K>>
    ensures { Reads rows_of (RowsHold (place_of K.KIND) K.KIND (opened block.now)) (rows_at (place_of K.KIND) (opened block.now).part) result }
{
    let place = RowPlace::of(K::KIND);
    let count = row_count(block, place)?;
    // A library has fixed memory: here is room for the rows of any ladder, and as many as were counted are read into it.
    let mut rows = [Row { price: 0, end: 0 }; 20];
    fill(&mut rows[..count], |k| row_at(block, place.from, k))?;
    RowLadder::new(&rows[..count]).ok()
}
