//! Grains to cents. A grain is 1/12,000 of a cent.

ghost use Rattle.market.specs.Cents.{Rounding, nearest_cent};
ghost use Rattle.std.specs.Prelude.{◌≡◌};

const GRAINS_PER_CENT: i64 = 12_000;

const HALF_A_CENT: i64 = 6_000;

/// The nearest whole number of cents; exact halves go away from zero.
// No `From`: it rounds.
pub fn to_cents(grains: i64) -> i64
    ensures value { result ≡ nearest_cent grains }
    ensures law { Rounding grains result }
{
    // both divisions go toward zero, so a rest of half a cent or more counts as one more cent away from zero
    grains / GRAINS_PER_CENT + grains % GRAINS_PER_CENT / HALF_A_CENT
}
