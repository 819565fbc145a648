// Lists that stand for a demand.
ghost use Rattle.std.specs.Prelude.{◌≡◌, ◌≤◌, length};
ghost use Rattle.mix_bids.specs.Bids.{AreBids, NoneNegative};

use mix_bids::BidList;
use mix_law::Convex;
use mix_num::{Prices, Set, SetTable};

/// A list that is convex over all rational prices: it stands for a demand. What it carries is that no facet weight of it is
/// negative at any whole prices, which is the same.
#[derive(Drop)]
pub struct ValidList {
    list: BidList,
    ghost some_goods: { 1 ≤ list.goods },
    ghost few_goods: { list.goods ≤ 8 },
    ghost few_bids: { length list.bids ≤ 400 },
    ghost proper: { AreBids list.goods list.bids },
    ghost valid: { NoneNegative list.goods list.bids },
}

impl ValidList {
    ghost use Rattle.mix_bids.specs.Convexity.{IsConvexList};
    ghost use Rattle.mix_validity.specs.ValidLists.{book_of};

    // The list, once it is known that no facet weight of it is negative.
    pub(crate) fn new(list: BidList) -> ValidList
        requires { NoneNegative list.goods list.bids }
        ensures { book_of result ≡ list }
    {
        let _goods = list.goods();
        let _bids = list.bids();
        ValidList { list }
    }

    /// The list of bids.
    #[tactic(auto, using(crate::proofs::ConvexLists::valid_is_convex))]
    pub fn list(&self) -> &BidList
        ensures value { result.now ≡ book_of self.now }
        ensures convex { IsConvexList (book_of self.now).bids }
    {
        &self.list
    }
}

/// The function is the indirect utility, the total is the sum of the weights, and the tops are the greatest values offered. The
/// reach is the list's, and the falls and the gains of all sets come from one pass over the bids.
impl Convex for ValidList {
    ghost use Rattle.mix_bids.specs.Bids.{top_value, total_weight, utility};
    ghost use Rattle.mix_bids.specs.Reaches.{reach_of};
    ghost use Rattle.mix_validity.specs.Laws.{valid_l_natural};

    ghost goods = { λ valid. valid.list.goods };

    ghost total = { λ valid. total_weight valid.list.bids };

    ghost top = { λ valid. top_value valid.list.bids };

    ghost function = { λ valid. utility valid.list.bids };

    ghost reach = { λ valid x s. reach_of valid.list.goods s valid.list.bids x };

    ghost l_natural = { λ valid. valid_l_natural valid.list.goods valid.list.bids valid.proper valid.valid };

    fn goods(&self) -> usize {
        self.list.goods()
    }

    fn total(&self) -> i64 {
        self.list.total()
    }

    fn top(&self, good: usize) -> i64 {
        self.list.top(good)
    }

    fn value(&self, prices: &Prices) -> i64 {
        self.list.utility(prices)
    }

    fn fall(&self, prices: &Prices, set: Set) -> i64 {
        self.list.fall(prices, set)
    }

    fn gain_down(&self, prices: &Prices, set: Set) -> i64 {
        self.list.gain_down(prices, set)
    }

    fn reach(&self, prices: &Prices, set: Set) -> i64 {
        self.list.reach(prices, set)
    }

    fn falls(&self, prices: &Prices, out: &mut SetTable) {
        self.list.falls(prices, out)
    }

    fn falls_by_parts(&self, prices: &Prices, parts: &mut SetTable) -> bool {
        self.list.add_best_weights(prices, parts);
        true
    }

    fn gains(&self, prices: &Prices, out: &mut SetTable) {
        self.list.gains(prices, out)
    }
}
