// The members and the seller of one auction.
ghost use Rattle.std.specs.Prelude.{◌≡◌, ◌≤◌, length, All};
ghost use Rattle.mix_seller.specs.Sellers.{supply_of};
ghost use Rattle.mix_market.specs.Memberships.{AreMembers, AreTops, sum_of_totals};

use crate::sums;
use crate::supply::{cost, supplied};
use arrayvec::ArrayVec;
use mix_law::Convex;
use mix_num::{MOST_VALUE, Prices, Set, SetTable, outside};
use mix_seller::Seller;

/// At most 256 members and a seller, all over the same goods.
#[derive(Drop)]
pub struct Market<D: Convex> {
    members: Vec<D>,
    seller: Seller,
    total: i64,
    tops: Prices,
    pub ghost membership: { AreMembers D.goods D.total (length (supply_of seller)) members.items },
    pub ghost summed: { total ≡ sum_of_totals D.total members.items },
    pub ghost priced: { AreTops D.top (length (supply_of seller)) members.items tops.items },
}

impl<D: Convex> Market<D> {
    ghost use Rattle.std.specs.Prelude.{◌≡◌, ◌≤◌, ◌<◌, ◌≤ℤ◌, ◌+ℤ◌, ◌*ℤ◌, ℕ, pos, length, All};
    ghost use Rattle.mix_num.specs.Vectors.{members, ray, with_null};
    ghost use Rattle.mix_num.specs.Ranges.{HaveRoom, Lies};
    ghost use Rattle.mix_num.specs.Moves.{IsSetOfGoods};
    ghost use Rattle.mix_num.specs.Tables.{number_of};
    ghost use Rattle.mix_seller.specs.Sellers.{supply_of};
    ghost use Rattle.mix_market.specs.Steepest.{AreSlopes, AreSlopesDown, slope_of};
    ghost use Rattle.mix_market.specs.Extremes.{greatest_of, least_of};
    ghost use Rattle.mix_market.specs.Memberships.{sum_of_totals};
    ghost use Rattle.mix_market.specs.Markets.{goods_of, lyapunov_of, members_of, seller_of};

    /// The market of these members and this seller.
    pub fn new(members: Vec<D>, seller: Seller) -> Market<D>
        requires few { length members.items ≤ 256 }
        requires same_goods { All (λ member. D.goods member ≡ length (supply_of seller)) members.items }
        ensures members { members_of result ≡ members.items }
        ensures seller { seller_of result ≡ seller }
    {
        let total = sums::total(&members);
        let mut tops = ArrayVec::new();
        for place in 0..seller.supply().len() {
            tops.push(sums::highest_top(&members, place + 1));
        }
        Market {
            members,
            seller,
            total,
            tops,
        }
    }

    /// The members, in order.
    pub fn members(&self) -> &[D]
        ensures { result.now ≡ members_of self.now }
    {
        &self.members
    }

    /// The members, in order, once the market is over.
    pub fn into_members(self) -> Vec<D>
        ensures { result.items ≡ members_of self }
    {
        self.members
    }

    /// The seller.
    pub fn seller(&self) -> &Seller
        ensures { result.now ≡ seller_of self.now }
    {
        &self.seller
    }

    /// The sum of the members' totals, from 0 to 2,048,000,000.
    pub fn total(&self) -> i64
        ensures value { result ≡ sum_of_totals D.total (members_of self.now) }
        ensures range { (pos 0 ≤ℤ result) × (result ≤ℤ pos 2048000000) }
    {
        self.total
    }

    /// A price of the good from which on no member wants it, from -1,000,000 to 1,000,000: the greatest of the members' tops,
    /// or -1,000,000 where there is no member.
    pub fn top(&self, good: usize) -> i64
        requires { (1 ≤ good) × (good ≤ goods_of self.now) }
        ensures value { result ≡ greatest_of (λ member. D.top member good) (members_of self.now) }
        ensures range { Lies MOST_VALUE result }
        ensures above { All (λ member. D.top member good ≤ℤ result) (members_of self.now) }
    {
        self.tops[good - 1]
    }

    /// The sum of the members' values and of supply times price. The seller's own value is no part of it.
    pub fn lyapunov(&self, prices: &Prices) -> i64
        requires { HaveRoom (goods_of self.now) prices.now.items }
        ensures { result ≡ lyapunov_of self.now (with_null prices.now.items) }
    {
        sums::value(&self.members, prices) + cost(self.seller.supply(), prices)
    }

    /// By how much [`Market::lyapunov`] rises when the price of each good of the set rises by one.
    pub fn slope(&self, prices: &Prices, set: Set) -> i64
        requires prices { HaveRoom (goods_of self.now) prices.now.items }
        requires goods { IsSetOfGoods (goods_of self.now) set }
        ensures { result ≡ slope_of (lyapunov_of self.now) (with_null prices.now.items) (members set) }
    {
        supplied(self.seller.supply(), set) - sums::fall(&self.members, prices, set)
    }

    /// [`Market::slope`] of each set of goods; every other set gets 0.
    pub fn slopes(&self, prices: &Prices, out: &mut SetTable)
        requires { HaveRoom (goods_of self.now) prices.now.items }
        ensures goods { AreSlopes (goods_of self.now) (lyapunov_of self.now) (with_null prices.now.items) out.new }
        ensures others { (set : ℕ) → ¬ IsSetOfGoods (goods_of self.now) set → number_of out.new set ≡ pos 0 }
    {
        let falls = sums::falls(&self.members, prices);
        *out = SetTable::new();
        // The sets of goods are the even numbers.
        for half in 0..Set::goods(prices.len()).bits() / 2 + 1 {
            let set = Set::from_bits(2 * half);
            out.add(set, supplied(self.seller.supply(), set) - falls.at(set));
        }
    }

    /// By how much [`Market::lyapunov`] rises when the price of each good of a set falls by one, for each set of goods; every other
    /// set gets 0.
    pub fn slopes_down(&self, prices: &Prices, out: &mut SetTable)
        requires { HaveRoom (goods_of self.now) prices.now.items }
        ensures goods { AreSlopesDown (goods_of self.now) (lyapunov_of self.now) (with_null prices.now.items) out.new }
        ensures others { (set : ℕ) → ¬ IsSetOfGoods (goods_of self.now) set → number_of out.new set ≡ pos 0 }
    {
        let falls = sums::falls(&self.members, prices);
        let total = self.total();
        let n = prices.len();
        *out = SetTable::new();
        // A set falls by one where all choices fall by one, which gains the total, and the others rise again.
        for half in 0..Set::goods(n).bits() / 2 + 1 {
            let set = Set::from_bits(2 * half);
            let gain = total - falls.at(outside(set, n));
            out.add(set, gain - supplied(self.seller.supply(), set));
        }
    }

    /// A number of steps, from 1 to 8,000,000, over which [`Market::lyapunov`] changes by the slope at each step along the
    /// set: the least of the members' reaches, or 8,000,000 where there is no member.
    pub fn reach(&self, prices: &Prices, set: Set) -> i64
        requires prices { HaveRoom (goods_of self.now) prices.now.items }
        requires goods { IsSetOfGoods (goods_of self.now) set }
        requires some { 0 < set }
        ensures value { result ≡ least_of (λ member. D.reach member (with_null prices.now.items) (members set)) (members_of self.now) }
        ensures range { (pos 1 ≤ℤ result) × (result ≤ℤ pos 8000000) }
        ensures linear { (m : ℕ) → pos m ≤ℤ result → lyapunov_of self.now (ray (with_null prices.now.items) m (members set)) ≡ lyapunov_of self.now (with_null prices.now.items) +ℤ (pos m *ℤ slope_of (lyapunov_of self.now) (with_null prices.now.items) (members set)) }
    {
        sums::reach(&self.members, prices, set)
    }
}
