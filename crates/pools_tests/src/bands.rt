//! A basis such as a site might bring: none of the library's makes is this one.

ghost use Rattle.pools.specs.Sharing.{Shared};
ghost use Rattle.pools_tests.specs.Bands.{banded};
ghost use Rattle.std.specs.Prelude.{◌≡◌, slice_index};
ghost use Rattle.std.proofs.Common.{rules};

use pools::basis::Basis;
use pools::pool::{Pool, Shares, share};
use pools::withdrawals::Withdrawals;

/// Owners weigh by the band that their withdrawn quantity lies in.
#[derive(Clone, Copy, Debug, PartialEq, Eq)]
pub struct Bands;

impl Basis for Bands {
    ghost weighs = { λ _ _ withdrawn. banded withdrawn };

    ghost bounded = { Prim.search rules };

    fn weight(&self, _place: usize, withdrawn: u32) -> u32 {
        if withdrawn < 100 {
            1
        } else if withdrawn < 10_000 {
            5
        } else {
            20
        }
    }
}

/// Shares a pool by bands: the promise of sharing, at a basis that the library does not know.
pub fn share_by_bands(pool: Pool, withdrawn: &Withdrawals) -> Shares
    ensures { Shared pool.cents (λ place. banded (slice_index withdrawn.now.quantities place)) withdrawn.now.owners result.owners result.operator }
{
    share(pool, &Bands, withdrawn)
}
