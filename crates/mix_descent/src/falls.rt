// Whether prices may fall from a point and leave the Lyapunov function as low.
ghost use Rattle.std.specs.Prelude.{◌≡◌, ◌↔◌, ◌<◌, ◌≤◌, ◌<ℤ◌, ◌≤ℤ◌, ℕ, suc, pos, true, length, slice_index_or, IsTrue};
ghost use Rattle.mix_num.specs.Vectors.{members, with_null};
ghost use Rattle.mix_num.specs.Ranges.{HaveRoom};
ghost use Rattle.mix_num.specs.Tables.{number_of};
ghost use Rattle.mix_market.specs.Lowerings.{RisesWhereFallen};
ghost use Rattle.mix_market.specs.Markets.{goods_of, lyapunov_of, reserves_of};

use mix_law::Convex;
use mix_market::{Market, are_above};
use mix_num::{Prices, Set, SetTable};

/// Whether the Lyapunov function rises wherever the prices of a set of goods, each above its reserve, fall by one.
pub(crate) fn rises_where_fallen<D: Convex>(market: &Market<D>, prices: &Prices) -> bool
    requires { HaveRoom (goods_of market.now) prices.now.items }
    ensures { IsTrue result ↔ RisesWhereFallen (goods_of market.now) (lyapunov_of market.now) (with_null (reserves_of market.now)) (with_null prices.now.items) }
{
    let reserve = market.seller().reserve();
    let mut slopes = SetTable::new();
    market.slopes_down(prices, &mut slopes);
    for half in 1..Set::goods(prices.len()).bits() / 2 + 1 {
        let set = Set::from_bits(2 * half);
        if are_above(reserve, prices, set) && stays_low(&slopes, set) {
            return false;
        }
    }
    true
}

/// Whether the slope of the set is 0 or negative.
fn stays_low(slopes: &SetTable, set: Set) -> bool
    ensures { IsTrue result ↔ (number_of slopes.now set ≤ℤ pos 0) }
{
    slopes.at(set) <= 0
}
