//! What holds of each pool.
ghost use Rattle.std.specs.Prelude.{◌≡◌, ◌+◌, ℕ, sum_by};
ghost use Rattle.undo_pool.specs.Extents.{count_of, owners_of};
ghost use Rattle.undo_pool.specs.Pool.{all_extents, extents_of};

use crate::Pool;

/// An owner has as many extents as its bytes take, rounded up. Those of all owners and the free ones are all extents.
pub fn extents_add_up(pool: &Pool)
    ensures rounded { (owner : ℕ) → count_of pool.now.used owner ≡ extents_of pool.now owner }
    ensures sum { sum_by (λ owner. extents_of pool.now owner) (owners_of pool.now.used) + pool.now.free ≡ all_extents pool.now }
{
    pool.are_packed();
}
