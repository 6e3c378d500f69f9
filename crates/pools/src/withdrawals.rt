//! What each owner withdrew.

ghost use Rattle.std.specs.Prelude.{◌≡◌, ◌≤◌, length, take};

/// The quantity in kWh that each owner withdrew, by place, for up to 32 owners.
///
/// They stand in an array that the value owns, since no library allocates and callers return it; `by_owner` reads it as a slice.
#[derive(Clone, Copy, Debug, PartialEq, Eq)]
pub struct Withdrawals {
    pub quantities: [u32; 32],
    pub owners: usize,
    ghost whole: { length quantities ≡ 32 },
    ghost few: { owners ≤ 32 },
}

impl Withdrawals {
    /// The quantities of the owners, by place.
    pub fn by_owner(&self) -> &[u32]
        ensures quantities { result.now ≡ take self.now.owners self.now.quantities }
        ensures len { length result.now ≡ self.now.owners }
    {
        &self.quantities[..self.owners]
    }
}
