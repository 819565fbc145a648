// Prices and a floor below them.
ghost use Rattle.std.specs.Prelude.{◌≡◌, ◌↔◌, ◌<◌, ◌<ℤ◌, ℕ, suc, pos, true, length, slice_index_or, IsTrue};
ghost use Rattle.mix_num.specs.Vectors.{members};

use mix_num::{Prices, Set};

/// Whether the price of each good of the set is above the floor's.
pub fn are_above(floor: &Prices, prices: &Prices, set: Set) -> bool
    requires { length floor.now.items ≡ length prices.now.items }
    ensures { IsTrue result ↔ ((k : ℕ) → k < length prices.now.items → members set (suc k) ≡ true → slice_index_or floor.now.items k (pos 0) <ℤ slice_index_or prices.now.items k (pos 0)) }
{
    for (place, price) in prices.iter().enumerate() {
        if set.has(place + 1) && *price <= floor[place] {
            return false;
        }
    }
    true
}
