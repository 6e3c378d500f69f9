//! Rows as a site writes them, and which of them make a ladder.

ghost use Rattle.std.specs.Prelude.{◌≡◌, ℕ, ◌<◌, ◌≤◌, length, MatchOption, MatchResult, unsigned_abs};
ghost use Rattle.ladders.specs.Rows.{AllGood, FirstFault, MakesLadder, follows, gained, good, good_after, in_range, in_step, lowest_price, most_rows};
ghost use Rattle.ladders.specs.declared.rows.LadderFault.TheVariants.{BadRow};

use std::error::Error;
use std::fmt;

/// The lowest price there is, in cents per MWh.
pub(crate) const LOWEST_PRICE: i32 = -200_000;

/// The highest price there is, in cents per MWh.
pub(crate) const HIGHEST_PRICE: i32 = 200_000;

/// The highest end of a row, in tenths of a MW.
const HIGHEST_END: i32 = 1_000;

/// A row: its price in cents per MWh, and its end in tenths of a MW.
#[derive(Clone, Copy, Debug, PartialEq, Eq)]
pub struct Row {
    pub price: i32,
    pub end: i32,
}

/// The ladders that are made of rows.
#[derive(Clone, Copy, Debug, PartialEq, Eq)]
pub enum LadderKind {
    Offer,
    Bid,
    Reserve,
}

/// Why rows make no ladder.
#[derive(Clone, Copy, Debug, PartialEq, Eq)]
pub enum LadderFault {
    TooManyRows,
    /// The first bad row, counted from 0.
    BadRow(usize),
}

impl fmt::Display for LadderFault {
    fn fmt<W: fmt::Write>(&self, f: &mut fmt::Formatter<W>) -> fmt::Result {
        match self {
            LadderFault::TooManyRows => f.write_str("too many rows"),
            LadderFault::BadRow(row) => write!(
                f,
                "row {row} is out of range or out of step with the row before it"
            ),
        }
    }
}

impl Error for LadderFault {}

impl LadderKind {
    fn most_rows(self) -> usize
        ensures { result ≡ most_rows self }
    {
        match self {
            LadderKind::Offer | LadderKind::Bid => 20,
            LadderKind::Reserve => 5,
        }
    }

    fn lowest_price(self) -> i32
        ensures { result ≡ lowest_price self }
    {
        match self {
            LadderKind::Offer | LadderKind::Bid => LOWEST_PRICE,
            LadderKind::Reserve => 0,
        }
    }

    /// Whether a price may stand in the row after another.
    fn follows(self, before: i32, price: i32) -> bool
        ensures { result ≡ follows self before price }
    {
        match self {
            LadderKind::Offer | LadderKind::Reserve => before <= price,
            LadderKind::Bid => price <= before,
        }
    }

    /// Whether a row's figures are in their ranges.
    fn in_range(self, row: Row) -> bool
        ensures { result ≡ in_range self row }
    {
        (self.lowest_price()..=HIGHEST_PRICE).contains(&row.price) && row.end <= HIGHEST_END
    }

    /// Whether a row may stand after another, or first.
    fn in_step(self, before: Option<Row>, row: Row) -> bool
        ensures { result ≡ in_step self before row }
    {
        match before {
            None => 0 < row.end,
            Some(last) => last.end < row.end && self.follows(last.price, row.price),
        }
    }

    /// Whether a row is good after another, or as the first one.
    fn is_good_after(self, before: Option<Row>, row: Row) -> bool
        ensures { result ≡ good_after self before row }
    {
        self.in_range(row) && self.in_step(before, row)
    }

    /// Whether a row is good where it stands.
    fn is_good_at(self, rows: &[Row], row: usize) -> bool
        requires { row < length rows.now }
        ensures { result ≡ good self rows.now row }
    {
        let before = row.checked_sub(1).map(|before| rows[before]);
        self.is_good_after(before, rows[row])
    }

    /// What a row of this price gains: an offer's the price less the row's price, and a bid's the other way round.
    pub(crate) fn gain(self, price: i32, row_price: i32) -> i32
        requires near { unsigned_abs price ≤ 200000 }
        requires row_near { unsigned_abs row_price ≤ 200000 }
        ensures { result ≡ gained self price row_price }
    {
        match self {
            LadderKind::Offer | LadderKind::Reserve => price - row_price,
            LadderKind::Bid => row_price - price,
        }
    }

    /// The first bad row, counted from 0.
    fn first_bad(self, rows: &[Row]) -> Option<usize>
        requires { length rows.now ≤ most_rows self }
        ensures { MatchOption result (AllGood self rows.now) (λ row. FirstFault self rows.now (BadRow row)) }
    {
        // By number. A chain that pairs each row with the one before it was tried, and is slower: it takes twice the time.
        (0..rows.len()).find(|&row| !self.is_good_at(rows, row))
    }

    /// Looks for the first fault of rows that are to make a ladder of this kind.
    pub fn check(self, rows: &[Row]) -> Result<(), LadderFault>
        ensures { MatchResult result (λ _. MakesLadder self rows.now) (FirstFault self rows.now) }
    {
        if rows.len() > self.most_rows() {
            return Err(LadderFault::TooManyRows);
        }
        self.first_bad(rows)
            .map_or(Ok(()), |row| Err(LadderFault::BadRow(row)))
    }
}
