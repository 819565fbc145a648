// Two members taken as one.
ghost use Rattle.std.specs.Prelude.{◌≡◌, pos, ◌+ℤ◌, ◌≤ℤ◌};

use crate::convex::Convex;
use mix_num::{Prices, Set};

/// Two members over the same goods, whose totals add up to at most 8,000,000; together they are a member again.
#[derive(Drop)]
pub struct Pair<A: Convex, B: Convex> {
    pub first: A,
    pub second: B,
    pub ghost same_goods: { A.goods first ≡ B.goods second },
    pub ghost small: { (A.total first +ℤ B.total second) ≤ℤ pos 8000000 },
}

impl<A: Convex, B: Convex> Pair<A, B> {
    /// The pair of these two.
    pub fn new(first: A, second: B) -> Pair<A, B>
        requires goods { A.goods first ≡ B.goods second }
        requires small { (A.total first +ℤ B.total second) ≤ℤ pos 8000000 }
        ensures first { result.first ≡ first }
        ensures second { result.second ≡ second }
    {
        Pair { first, second }
    }
}

/// The sum of the two functions.
impl<A: Convex, B: Convex> Convex for Pair<A, B> {
    ghost use Rattle.std.specs.Int.{int_min};
    ghost use Rattle.std.specs.Prelude.{◌+ℤ◌};
    ghost use Rattle.mix_law.specs.Sums.{greater_top, sum_l_natural};

    ghost goods = { λ pair. A.goods pair.first };

    ghost total = { λ pair. A.total pair.first +ℤ B.total pair.second };

    ghost top = { λ pair. greater_top (A.top pair.first) (B.top pair.second) };

    ghost function = { λ pair x. A.function pair.first x +ℤ B.function pair.second x };

    ghost reach = { λ pair x set. int_min (A.reach pair.first x set) (B.reach pair.second x set) };

    ghost l_natural = { λ pair. sum_l_natural pair.same_goods (A.l_natural pair.first) (B.l_natural pair.second) };

    fn goods(&self) -> usize {
        self.first.goods()
    }

    fn total(&self) -> i64 {
        self.first.total() + self.second.total()
    }

    fn top(&self, good: usize) -> i64 {
        self.first.top(good).max(self.second.top(good))
    }

    fn value(&self, prices: &Prices) -> i64 {
        self.first.value(prices) + self.second.value(prices)
    }

    fn fall(&self, prices: &Prices, set: Set) -> i64 {
        self.first.fall(prices, set) + self.second.fall(prices, set)
    }

    fn gain_down(&self, prices: &Prices, set: Set) -> i64 {
        self.first.gain_down(prices, set) + self.second.gain_down(prices, set)
    }

    fn reach(&self, prices: &Prices, set: Set) -> i64 {
        self.first
            .reach(prices, set)
            .min(self.second.reach(prices, set))
    }
}
