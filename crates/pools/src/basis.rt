//! Bases: what each owner weighs when a pool is shared.

ghost use Rattle.std.specs.Prelude.{◌≡◌, ℕ, ◌≤◌};
ghost use Rattle.pools.specs.Bases.{exempted, fixed, withdrawn as weight_withdrawn};
ghost use Rattle.std.proofs.Common.{rules};

/// The greatest weight.
const MOST: u32 = 6_400_000;

/// The greatest fixed share.
const MOST_FIXED: u32 = 10_000;

/// Every basis there can be: for each place and withdrawn quantity in kWh, a weight from 0 to 6,400,000. It never refuses, and no
/// question alters it.
pub trait Basis {
    ghost weighs: { Self → ℕ → ℕ → ℕ };

    fn weight(&self, place: usize, withdrawn: u32) -> u32
        ensures { result ≡ weighs self.now place withdrawn };

    ghost bounded: { (basis : Self) (place withdrawn : ℕ) → weighs basis place withdrawn ≤ 6400000 };
}

/// An owner weighs what it withdrew.
#[derive(Clone, Copy, Debug, PartialEq, Eq)]
pub struct Withdrawn;

impl Basis for Withdrawn {
    ghost weighs = { λ _ _ withdrawn. weight_withdrawn withdrawn };

    ghost bounded = { Prim.search rules };

    fn weight(&self, _place: usize, withdrawn: u32) -> u32 {
        withdrawn.min(MOST)
    }
}

/// An owner weighs the number at its place, at most 10,000.
#[derive(Clone, Copy, Debug, PartialEq, Eq)]
pub struct FixedShares {
    pub shares: [u32; 32],
}

impl Basis for FixedShares {
    ghost weighs = { λ basis place _. fixed basis.shares place };

    ghost bounded = { Prim.search rules };

    fn weight(&self, place: usize, _withdrawn: u32) -> u32 {
        self.shares
            .get(place)
            .map_or(0, |&share| share.min(MOST_FIXED))
    }
}

/// The owners whose place is marked weigh nothing; the others weigh what the basis below says.
#[derive(Clone, Copy, Debug, PartialEq, Eq)]
pub struct Exemption<B> {
    pub exempt: [bool; 32],
    pub below: B,
}

impl<B: Basis> Basis for Exemption<B> {
    ghost weighs = { λ basis place withdrawn. exempted basis.exempt place (B.Basis.weighs basis.below place withdrawn) };

    ghost bounded = { Prim.search rules };

    fn weight(&self, place: usize, withdrawn: u32) -> u32 {
        if self.exempt.get(place).is_some_and(|&exempt| exempt) {
            0
        } else {
            self.below.weight(place, withdrawn)
        }
    }
}
