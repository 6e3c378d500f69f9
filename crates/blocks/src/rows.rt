//! The rows of a resource: two ladders, each with a word that counts its rows.

ghost use Rattle.blocks.specs.Firsts.{unless};
ghost use Rattle.blocks.specs.Ladders.{count_word, end_in, nth_row, rows_in, rows_start};
ghost use Rattle.blocks.specs.Records.{body_opened, fault_at};
ghost use Rattle.blocks.specs.Verdicts.{betweenZ, energy_kind, ladder_verdict, most_energy_rows, rows_from, rows_verdict};
ghost use Rattle.blocks.specs.Words.{word_at};
ghost use Rattle.blocks.specs.declared.fault.Rule.TheVariants.{Rows as rows_rule};
ghost use Rattle.ladders.specs.Rows.{most_rows};
ghost use Rattle.std.specs.Prelude.{◌≡◌, ◌≤◌};

use crate::fault::{BlockFault, Rule};
use crate::kind::{Kind, Ladder};
use crate::record::BLOCK;
use crate::whole::{Block, Body};
use crate::word::word;
use ladders::rows::{LadderFault, LadderKind, Row};
use std::array;

/// The kind of energy ladder that a side has.
fn energy_kind(side: char) -> LadderKind
    ensures { result ≡ energy_kind side }
{
    match side {
        'L' => LadderKind::Bid,
        _ => LadderKind::Offer,
    }
}

/// The most energy rows that a side may have: a load without bids has none.
fn most_energy_rows(side: char) -> u32
    ensures value { result ≡ most_energy_rows side }
    ensures bound { result ≤ 20 }
{
    match side {
        'N' => 0,
        _ => 20,
    }
}

/// A row of a ladder.
fn row(part: &[u8; BLOCK], ladder: Ladder, k: u32) -> Row
    ensures { result ≡ nth_row ladder part.now k }
{
    let at = ladder.rows_start() + 2 * k as usize;
    Row {
        price: word(part, at),
        end: word(part, at + 1),
    }
}

impl Block<'_> {
    /// How many rows a ladder has by the word that counts them, whatever its sign.
    pub(crate) fn row_count(&self, ladder: Ladder) -> u32
        ensures { result ≡ rows_in ladder self.now.part.now }
    {
        word(self.part, ladder.count_word()).unsigned_abs()
    }

    /// The end of the last row of a ladder; 0 without rows.
    pub(crate) fn last_end(&self, ladder: Ladder) -> i32
        ensures { result ≡ end_in ladder self.now.part.now }
    {
        match self.row_count(ladder) {
            0 => 0,
            count => row(self.part, ladder, count - 1).end,
        }
    }

    /// The rows of a ladder, and what stands where it could have more.
    // A library has fixed memory: room for the rows of any ladder. A record reads its rows by itself, since its part may have any length.
    fn rows(&self, ladder: Ladder) -> [Row; 20]
        ensures { result ≡ rows_from self.now.part.now (rows_start ladder) 20 }
    {
        let part = self.part;
        array::from_fn(|k| row(part, ladder, k as u32))
    }

    /// A row count is not negative and not too high.
    fn check_count(&self, ladder: Ladder, most: u32) -> Result<(), BlockFault>
        ensures { result ≡ unless (betweenZ 0 most (word_at self.now.part.now (count_word ladder))) (fault_at rows_rule self.now.number (count_word ladder)) }
    {
        let at = ladder.count_word();
        let few = u32::try_from(word(self.part, at)).is_ok_and(|count| count <= most);
        self.fault_unless(few, Rule::Rows, at)
    }

    /// The rows make a ladder. They are not too many, since their count was checked before.
    fn check_ladder(&self, ladder: Ladder, kind: LadderKind) -> Result<(), BlockFault>
        requires { rows_in ladder self.now.part.now ≤ most_rows kind }
        ensures { result ≡ ladder_verdict kind self.now.part.now self.now.number (rows_start ladder) (rows_in ladder self.now.part.now) }
    {
        let rows = self.rows(ladder);
        let count = self.row_count(ladder) as usize;
        let Err(LadderFault::BadRow(row)) = kind.check(&rows[..count]) else {
            return Ok(());
        };
        Err(self.fault(Rule::Rows, ladder.rows_start() + 2 * row))
    }
}

impl Body<'_> {
    /// The row counts and the rows of a resource.
    pub(crate) fn check_rows(&self) -> Result<(), BlockFault>
        ensures { result ≡ rows_verdict (body_opened self.now) }
    {
        let Kind::Resource = self.kind else {
            return Ok(());
        };
        let side = self.side();
        self.block
            .check_count(Ladder::Energy, most_energy_rows(side))?;
        self.block.check_count(Ladder::Reserve, 5)?;
        self.block.check_ladder(Ladder::Energy, energy_kind(side))?;
        self.block
            .check_ladder(Ladder::Reserve, LadderKind::Reserve)
    }
}
