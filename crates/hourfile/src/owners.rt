//! The number of owners of a day.

ghost use Rattle.std.specs.Prelude.{◌≡◌, ◌≤◌, ◌↔◌, IfSome, IsSome};

/// How many owners share a day: 1 to 32.
#[derive(Clone, Copy, Debug, PartialEq, Eq, PartialOrd, Ord, Hash)]
pub struct Owners {
    pub number: u32,
    ghost some: { 1 ≤ number },
    ghost few: { number ≤ 32 },
}

impl Owners {
    /// So many owners, or none where no day is shared by so many.
    pub fn new(number: u32) -> Option<Owners>
        ensures some { IsSome result ↔ ((1 ≤ number) × (number ≤ 32)) }
        ensures same { IfSome result (λ owners. owners.number ≡ number) }
    {
        // No `then_some`: it would make the value before the test.
        if (1..=32).contains(&number) {
            Some(Owners { number })
        } else {
            None
        }
    }
}
