// Members of either kind.
use crate::capped::Capped;
use mix_law::Convex;
use mix_num::{Prices, Set, SetTable};
use mix_validity::ValidList;

/// A valid list of bids, or a list of bids of positive weight with a cap on their units.
#[derive(Drop)]
pub enum Member {
    List(ValidList),
    Capped(Capped),
}

/// The part that the member is.
impl Convex for Member {
    ghost use Rattle.mix_cap.specs.MemberLaws.{function_of, goods_of, member_l_natural, reach_of, top_of, total_of};

    ghost goods = { goods_of };

    ghost total = { total_of };

    ghost top = { top_of };

    ghost function = { function_of };

    ghost reach = { reach_of };

    ghost l_natural = { member_l_natural };

    fn goods(&self) -> usize {
        match self {
            Member::List(list) => list.goods(),
            Member::Capped(capped) => capped.goods(),
        }
    }

    fn total(&self) -> i64 {
        match self {
            Member::List(list) => list.total(),
            Member::Capped(capped) => capped.total(),
        }
    }

    fn top(&self, good: usize) -> i64 {
        match self {
            Member::List(list) => list.top(good),
            Member::Capped(capped) => capped.top(good),
        }
    }

    fn value(&self, prices: &Prices) -> i64 {
        match self {
            Member::List(list) => list.value(prices),
            Member::Capped(capped) => capped.value(prices),
        }
    }

    fn fall(&self, prices: &Prices, set: Set) -> i64 {
        match self {
            Member::List(list) => list.fall(prices, set),
            Member::Capped(capped) => capped.fall(prices, set),
        }
    }

    fn gain_down(&self, prices: &Prices, set: Set) -> i64 {
        match self {
            Member::List(list) => list.gain_down(prices, set),
            Member::Capped(capped) => capped.gain_down(prices, set),
        }
    }

    fn reach(&self, prices: &Prices, set: Set) -> i64 {
        match self {
            Member::List(list) => list.reach(prices, set),
            Member::Capped(capped) => capped.reach(prices, set),
        }
    }

    fn falls(&self, prices: &Prices, out: &mut SetTable) {
        match self {
            Member::List(list) => list.falls(prices, out),
            Member::Capped(capped) => capped.falls(prices, out),
        }
    }

    fn falls_by_parts(&self, prices: &Prices, parts: &mut SetTable) -> bool {
        match self {
            Member::List(list) => list.falls_by_parts(prices, parts),
            Member::Capped(capped) => capped.falls_by_parts(prices, parts),
        }
    }

    fn gains(&self, prices: &Prices, out: &mut SetTable) {
        match self {
            Member::List(list) => list.gains(prices, out),
            Member::Capped(capped) => capped.gains(prices, out),
        }
    }
}
