// Bidders with a cap on their units in all goods together.
ghost use Rattle.std.specs.Prelude.{◌≡◌, ◌≤◌, ◌<◌, ◌^◌, ◌*ℤ◌, ℕ, suc, length, pos, ◌≤ℤ◌};
ghost use Rattle.mix_num.specs.Vectors.{members};
ghost use Rattle.mix_num.specs.declared.limits.TheConstants.{MOST_UNITS};
ghost use Rattle.mix_bids.specs.Bids.{AreBids};
ghost use Rattle.mix_bids.specs.Caps.{ArePositive};

use crate::lots::{lifted, lots_at, threshold_of};
use crate::tallies::fallen;
use mix_bids::BidList;
use mix_law::Convex;
use mix_num::{MOST_UNITS, Prices, Set, SetTable, outside};

/// A list of bids of positive weight, of whose units at most `cap` are served: those with the greatest gains.
#[derive(Drop)]
pub struct Capped {
    list: BidList,
    cap: i64,
    ghost some_goods: { 1 ≤ list.goods },
    ghost few_goods: { list.goods ≤ 8 },
    ghost few_bids: { length list.bids ≤ 400 },
    ghost proper: { AreBids list.goods list.bids },
    ghost positive: { ArePositive list.bids },
    ghost range: { (pos 0 ≤ℤ cap) × (cap ≤ℤ pos MOST_UNITS) },
}

impl Capped {
    ghost use Rattle.std.specs.Prelude.{◌<◌, ◌^◌, ℕ, suc};
    ghost use Rattle.mix_num.specs.Ranges.{ArePrices, HaveRoom, Lies};
    ghost use Rattle.mix_num.specs.Tables.{number_of};
    ghost use Rattle.mix_num.specs.Vectors.{members, with_null};
    ghost use Rattle.mix_bids.specs.Caps.{capped_total, left_over};
    ghost use Rattle.mix_law.specs.Members.{fall_of};
    ghost use Rattle.mix_cap.specs.Cappeds.{book_of, cap_of, units_cap, utility_of};

    /// The bidder with this list and this cap, from 0 to 1,000,000. All weights are positive.
    pub fn new(list: BidList, cap: i64) -> Capped
        requires weights { ArePositive list.bids }
        requires cap { (pos 0 ≤ℤ cap) × (cap ≤ℤ pos MOST_UNITS) }
        ensures list { book_of result ≡ list }
        ensures cap { cap_of result ≡ cap }
    {
        // Whoever asks the list for its goods and bids knows their ranges.
        let _goods = list.goods();
        let _bids = list.bids();
        Capped { list, cap }
    }

    /// The list.
    pub fn list(&self) -> &BidList
        ensures { result.now ≡ book_of self.now }
    {
        &self.list
    }

    /// The cap, from 0 to 1,000,000.
    pub fn cap(&self) -> i64
        ensures value { result ≡ cap_of self.now }
        ensures range { (pos 0 ≤ℤ result) × (result ≤ℤ pos MOST_UNITS) }
    {
        self.cap
    }

    /// How many units are served: the cap, or all where they are fewer.
    fn served(&self) -> i64
        ensures value { result ≡ capped_total (units_cap self.now) (book_of self.now).bids }
        ensures range { (pos 0 ≤ℤ result) × (result ≤ℤ pos MOST_UNITS) }
    {
        self.list.total().min(self.cap)
    }

    /// How many units are left over by the cap.
    fn left(&self) -> i64
        ensures value { result ≡ pos (left_over (units_cap self.now) (book_of self.now).bids) }
        ensures range { (pos 0 ≤ℤ result) × (result ≤ℤ pos 4000000) }
    {
        let total = self.list.total();
        total - total.min(self.cap)
    }

    /// The sum of the gains of the units that are served.
    fn utility(&self, prices: &Prices) -> i64
        requires prices { ArePrices (book_of self.now).goods prices.now.items }
        ensures value { result ≡ utility_of self.now (with_null prices.now.items) }
        ensures range { Lies 40000000000000 result }
    {
        let lots = lots_at(&self.list, prices);
        let threshold = threshold_of(lots.as_slice(), self.cap);
        lifted(lots.as_slice(), threshold) - units_at(self.left(), threshold)
    }

    /// The table of what the utility falls by where the prices of a set of the choices 0 to n rise by one.
    fn all_falls(&self, prices: &Prices) -> SetTable
        requires { HaveRoom (book_of self.now).goods prices.now.items }
        ensures falls { (set : ℕ) → set < 2 ^ suc (book_of self.now).goods → number_of result set ≡ fall_of (utility_of self.now) (with_null prices.now.items) (members set) }
    {
        let lots = lots_at(&self.list, prices);
        let threshold = threshold_of(lots.as_slice(), self.cap);
        fallen(&self.list, prices, threshold, self.served())
    }
}

/// What so many units gain, each the threshold.
fn units_at(units: i64, threshold: u32) -> i64
    requires units { (pos 0 ≤ℤ units) × (units ≤ℤ pos 4000000) }
    requires threshold { threshold ≤ 5000000 }
    ensures value { result ≡ units *ℤ pos threshold }
    ensures range { (pos 0 ≤ℤ result) × (result ≤ℤ pos 20000000000000) }
{
    units * i64::from(threshold)
}

/// The choices 0 to n of a set.
fn inside(set: Set, n: usize) -> Set
    requires { n ≤ 8 }
    ensures members { (k : ℕ) → k < suc n → members result k ≡ members set k }
    ensures within { result < 2 ^ suc n }
{
    Set::from_bits(set.bits() & Set::whole(n).bits())
}

/// The function is the capped utility, the total is the number of units that are served, and the tops are the greatest values offered.
impl Convex for Capped {
    ghost use Rattle.mix_bids.specs.Bids.{top_value};
    ghost use Rattle.mix_bids.specs.Caps.{capped_total};
    ghost use Rattle.mix_cap.specs.Cappeds.{units_cap, utility_of};
    ghost use Rattle.mix_cap.specs.Laws.{capped_l_natural};
    ghost use Rattle.std.specs.Prelude.{pos};

    ghost goods = { λ capped. capped.list.goods };

    ghost total = { λ capped. capped_total (units_cap capped) capped.list.bids };

    ghost top = { λ capped. top_value capped.list.bids };

    ghost function = { utility_of };

    ghost reach = { λ capped x set. pos 1 };

    ghost l_natural = { λ capped. capped_l_natural capped.list.goods (units_cap capped) capped.list.bids capped.proper capped.positive };

    fn goods(&self) -> usize {
        self.list.goods()
    }

    fn total(&self) -> i64 {
        self.served()
    }

    fn top(&self, good: usize) -> i64 {
        self.list.top(good)
    }

    fn value(&self, prices: &Prices) -> i64 {
        self.utility(prices)
    }

    fn fall(&self, prices: &Prices, set: Set) -> i64 {
        self.all_falls(prices).at(inside(set, self.list.goods()))
    }

    fn gain_down(&self, prices: &Prices, set: Set) -> i64 {
        self.served() - self.all_falls(prices).at(outside(set, self.list.goods()))
    }

    fn reach(&self, _prices: &Prices, _set: Set) -> i64 {
        1
    }

    fn falls(&self, prices: &Prices, out: &mut SetTable) {
        let falls = self.all_falls(prices);
        for bits in 0..Set::whole(self.list.goods()).bits() + 1 {
            let set = Set::from_bits(bits);
            out.add(set, falls.at(set));
        }
    }

    fn gains(&self, prices: &Prices, out: &mut SetTable) {
        let falls = self.all_falls(prices);
        let served = self.served();
        let goods = self.list.goods();
        for bits in 0..Set::whole(goods).bits() + 1 {
            let set = Set::from_bits(bits);
            out.add(set, served - falls.at(outside(set, goods)));
        }
    }
}
