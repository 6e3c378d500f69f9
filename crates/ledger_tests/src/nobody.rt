// A basis such as a site might bring.
ghost use Rattle.std.proofs.Common.{rules};

use pools::basis::Basis;

/// Nobody weighs anything.
#[derive(Clone, Copy)]
pub(crate) struct Nobody;

impl Basis for Nobody {
    ghost weighs = { λ _ _ _. 0 };

    ghost bounded = { Prim.search rules };

    fn weight(&self, _place: usize, _withdrawn: u32) -> u32 {
        0
    }
}
