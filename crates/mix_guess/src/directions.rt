// Sets of goods whose prices rise or fall together, and where that makes the Lyapunov function fall most.
ghost use Rattle.std.specs.Prelude.{◌≤◌};

use crate::set_sums::SetSums;
use mix_num::Set;

/// A set of goods, and by how much the function rises at each step along it.
#[derive(Clone, Copy, Drop)]
pub struct Direction {
    pub set: Set,
    pub slope: i64,
}

impl Direction {
    /// No good moves.
    fn none() -> Direction {
        Direction {
            set: Set::from_bits(0),
            slope: 0,
        }
    }
}

/// The first of the sets of goods 1 to n along which the function falls most where their prices rise. The weights are summed over subsets.
pub fn steepest_rise(weights: &SetSums, supply: &SetSums, n: usize) -> Direction
    requires { n ≤ 8 }
{
    let mut best = Direction::none();
    for half in 1..Set::goods(n).bits() / 2 + 1 {
        let set = Set::from_bits(2 * half);
        let slope = supply.at(set).wrapping_sub(weights.at(set));
        if slope < best.slope {
            best = Direction { set, slope };
        }
    }
    best
}

/// The last of the sets of free goods along which the function falls most, or rises least, but not at all, where their prices fall.
/// The weights are summed over subsets.
pub fn steepest_fall(weights: &SetSums, supply: &SetSums, free: Set, n: usize) -> Direction
    requires { n ≤ 8 }
{
    let whole = Set::whole(n).bits();
    let total = weights.at(Set::whole(n));
    let mut best = Direction::none();
    for half in 1..Set::goods(n).bits() / 2 + 1 {
        let set = Set::from_bits(2 * half);
        let others = Set::from_bits(whole & !set.bits());
        let gain = total.wrapping_sub(weights.at(others));
        let slope = gain.wrapping_sub(supply.at(set));
        if set.bits() & !free.bits() == 0 && slope <= best.slope {
            best = Direction { set, slope };
        }
    }
    best
}
