//! Ladders: what a quantity earns on one, where it earns most, and what a schedule loses.

ghost use Rattle.std.specs.Prelude.{◌≡◌, ℕ, ◌*◌, ◌≤◌, pos, ◌-ℤ◌, ◌*ℤ◌, ◌≤ℤ◌, unsigned_abs};
ghost use Rattle.ladders.specs.Ladder.{Lawful, PointLaw, ProfitLaw, Rows, best_profit, economic_point, lost_profit};
ghost use Rattle.ladders.specs.Ladder.{profit as profit_on};

/// Every ladder there can be: rows, counted from 0, each with an end in tenths of a MW and, at every price in cents per MWh, a gain.
/// Its laws say what a ladder has to show, and no question alters it.
// A row that isn't there has end 0 and gain 0, and not `None`: the ladders that a site brings implement the trait as it stands.
pub trait Ladder {
    ghost means: { Self → Rows };

    /// The number of rows.
    fn rows(&self) -> usize
        ensures { result ≡ (means self.now).count };

    /// The end of a row; 0 for a row that isn't there.
    fn end(&self, row: usize) -> u32
        ensures { result ≡ (means self.now).end row };

    /// The gain of a row at a price; 0 for a row that isn't there. A price beyond ±200,000 counts as the nearer bound.
    fn gain(&self, price: i32, row: usize) -> i32
        ensures { result ≡ (means self.now).gain price row };

    ghost lawful: { (ladder : Self) → Lawful (means ladder) };
}

/// What the part of a quantity that lies inside a row earns.
fn row_profit(gain: i32, part: u64) -> i64
    requires small { unsigned_abs gain ≤ 400000 }
    requires inner { part ≤ 100000 }
    ensures value { result ≡ gain *ℤ pos part }
    ensures bound { unsigned_abs result ≤ 400000 * part }
{
    i64::from(gain) * part as i64
}

/// What a quantity, in twelfths of a kWh in one interval, earns at a price: over all rows, the gain times the part of the quantity
/// inside the row.
pub fn profit<L: Ladder>(ladder: &L, price: i32, quantity: u64) -> i64
    ensures value { result ≡ profit_on (L.means ladder.now) price quantity }
    ensures law { ProfitLaw (L.means ladder.now) price }
    ensures bound { unsigned_abs result ≤ 40000000000 }
{
    // The trait gives its rows by number, and two values are kept from row to row, the profit and where the row starts: a `fold` of the pair would be no
    // plainer.
    let mut profit: i64 = 0;
    let mut from: u64 = 0;
    for row in 0..ladder.rows() {
        let to = quantity.min(100 * u64::from(ladder.end(row)));
        profit += row_profit(ladder.gain(price, row), to - from);
        from = to;
    }
    profit
}

/// The economic point at a price, in tenths of a MW: the end of the last row with gain 0 or more, or 0 if there is none.
pub fn economic_point<L: Ladder>(ladder: &L, price: i32) -> u32
    ensures value { result ≡ economic_point (L.means ladder.now) price }
    ensures law { PointLaw (L.means ladder.now) price result }
    ensures bound { result ≤ 1000 }
{
    // From the last row on, since the last one that gains decides. A loop over all rows was tried: on up to five rows it can take half the time,
    // on twenty it takes one and a half times as much.
    (0..ladder.rows())
        .rev()
        .find(|&row| ladder.gain(price, row) >= 0)
        .map_or(0, |row| ladder.end(row))
}

/// The profit at the economic point, which no quantity exceeds.
pub fn best_profit<L: Ladder>(ladder: &L, price: i32) -> i64
    ensures value { result ≡ best_profit (L.means ladder.now) price }
    ensures most { (quantity : ℕ) → profit_on (L.means ladder.now) price quantity ≤ℤ result }
    ensures gap { (quantity : ℕ) → unsigned_abs (result -ℤ profit_on (L.means ladder.now) price quantity) ≤ 40000000000 }
    ensures bound { unsigned_abs result ≤ 40000000000 }
{
    let point = economic_point(ladder, price);
    profit(ladder, price, 100 * u64::from(point))
}

/// The lost profit of a schedule, in tenths of a MW: the profit at the economic point less the profit at the schedule. It is never
/// negative.
pub fn lost_profit<L: Ladder>(ladder: &L, price: i32, schedule: u32) -> i64
    ensures value { result ≡ lost_profit (L.means ladder.now) price schedule }
    ensures sound { pos 0 ≤ℤ result }
    ensures bound { unsigned_abs result ≤ 40000000000 }
{
    best_profit(ladder, price) - profit(ladder, price, 100 * u64::from(schedule))
}
