//! What a caller knows of a pool that it holds.

ghost use Rattle.std.specs.Prelude.{◌≡◌, ◌≤◌, unsigned_abs};

use pools::pool::Pool;

/// Passes a lent pool on. Every pool is within its bound, whoever holds it: nothing has to be asked of the pool to know that.
pub fn pass_on(pool: &Pool) -> &Pool
    ensures same { result.now ≡ pool.now }
    ensures bounded { unsigned_abs result.now.cents ≤ 14000000000 }
{
    pool
}
