//! The check of a block: the sum of (j + 1) × byte j over bytes 0 to 507.

ghost use Rattle.std.specs.Prelude.{◌≡◌, ◌^◌, ◌<◌};
ghost use Rattle.blocks.specs.Words.{check_of};

use crate::record::BLOCK;

const CHECKED_BYTES: usize = 508;

pub(crate) fn check_sum(part: &[u8; BLOCK]) -> u32
    ensures value { result ≡ check_of part.now }
    ensures small { result < 2 ^ 27 }
{
    // The proof of a chain's `sum` would not know that each byte is below 256, so that the sum fits.
    let mut sum = 0;
    for (j, byte) in part[..CHECKED_BYTES].iter().enumerate() {
        sum += (j as u32 + 1) * u32::from(*byte);
    }
    sum
}
