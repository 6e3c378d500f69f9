//! The number of an hour of a day.

ghost use Rattle.std.specs.Prelude.{◌≡◌, ◌-◌, ◌≤◌, ◌↔◌, IfSome, IsSome};

/// An hour of a day: 1 to 24.
// Like `Owners` but for its bound: one type over a kind would need a trait, two markers and a `Clone` by hand.
#[derive(Clone, Copy, Debug, PartialEq, Eq, PartialOrd, Ord, Hash)]
pub struct Hour {
    pub number: u32,
    ghost from: { 1 ≤ number },
    ghost to: { number ≤ 24 },
}

impl Hour {
    /// The hour of a number, or none where a day has no such hour.
    pub fn new(number: u32) -> Option<Hour>
        ensures some { IsSome result ↔ ((1 ≤ number) × (number ≤ 24)) }
        ensures same { IfSome result (λ hour. hour.number ≡ number) }
    {
        // No `then_some`: it would make the hour before the test.
        if (1..=24).contains(&number) {
            Some(Hour { number })
        } else {
            None
        }
    }

    /// Its index among the hours of a day, from 0.
    pub fn index(self) -> usize
        ensures { result ≡ self.number - 1 }
    {
        self.number as usize - 1
    }
}
