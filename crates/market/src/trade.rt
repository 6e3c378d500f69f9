//! Which way a position trades.

ghost use Rattle.std.specs.Prelude.{◌≡◌, ◌≤◌, unsigned_abs};
ghost use Rattle.market.specs.Trades.{sign};

/// A sale is paid what a purchase pays.
#[derive(Clone, Copy, Debug, PartialEq, Eq)]
pub enum Trade {
    Sale,
    Purchase,
}

impl Trade {
    /// What an amount is multiplied by where this trade sees it.
    pub(crate) fn sign(self) -> i32
        ensures value { result ≡ sign self }
        ensures bound { unsigned_abs result ≤ 1 }
    {
        match self {
            Trade::Sale => 1,
            Trade::Purchase => -1,
        }
    }
}
