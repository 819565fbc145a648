// The seller's supply and reserves.
ghost use Rattle.mix_num.specs.Sellers.{IsForSale};

use crate::units::{gains, left, loses, span, supply_where, weigh};
use mix_law::Convex;
use mix_num::{Bundle, MOST_UNITS, Prices, Set, copy};

/// The supply and the reserve of each good, both from 0 to 1,000,000, of 1 to 8 goods.
#[derive(Drop)]
pub struct Seller {
    supply: Bundle,
    reserve: Prices,
    pub ghost for_sale: { IsForSale supply.items reserve.items },
}

impl Seller {
    ghost use Rattle.std.specs.Prelude.{◌≡◌};
    ghost use Rattle.mix_seller.specs.Sellers.{supply_of, reserve_of};

    /// The seller of this supply at these reserves.
    pub fn new(supply: &Bundle, reserve: &Prices) -> Seller
        requires { IsForSale supply.now.items reserve.now.items }
        ensures supply { supply_of result ≡ supply.now.items }
        ensures reserve { reserve_of result ≡ reserve.now.items }
    {
        Seller {
            supply: copy(supply),
            reserve: copy(reserve),
        }
    }

    /// The supply of each good, from 0 to 1,000,000.
    pub fn supply(&self) -> &Bundle
        ensures value { result.now.items ≡ supply_of self.now }
        ensures range { IsForSale (supply_of self.now) (reserve_of self.now) }
    {
        &self.supply
    }

    /// The reserve of each good, from 0 to 1,000,000.
    pub fn reserve(&self) -> &Prices
        ensures value { result.now.items ≡ reserve_of self.now }
        ensures range { IsForSale (supply_of self.now) (reserve_of self.now) }
    {
        &self.reserve
    }
}

impl Seller {
    ghost use Rattle.std.specs.Prelude.{◌≡◌, suc, pos, length, ◌<◌, ◌≤ℤ◌, ◌-ℤ◌, ◌*ℤ◌};
    ghost use Rattle.mix_seller.specs.Sellers.{supply_of, reserve_of};
    ghost use Rattle.mix_num.specs.Ranges.{HaveRoom};
    ghost use Rattle.mix_num.specs.Sellers.{unit_gain};
    ghost use Rattle.mix_num.specs.Vectors.{members, minus, plus, with_null};
    ghost use Rattle.mix_seller.specs.Reaches.{good_reach};

    /// What all units of the good at place `k`, counted from 0, leave.
    fn left_at(&self, prices: &Prices, k: usize) -> i64
        requires prices { HaveRoom (length (supply_of self.now)) prices.now.items }
        requires place { k < length (supply_of self.now) }
        ensures value { result ≡ with_null (supply_of self.now) (suc k) *ℤ unit_gain (reserve_of self.now) (with_null prices.now.items) (suc k) }
        ensures range { (pos 0 ≤ℤ result) × (result ≤ℤ pos 5000000000000) }
    {
        weigh(self.supply[k], left(self.reserve[k], prices[k]))
    }

    /// What all units of that good lose where each choice of the set rises by one.
    fn loss_at(&self, prices: &Prices, set: Set, k: usize) -> i64
        requires prices { HaveRoom (length (supply_of self.now)) prices.now.items }
        requires place { k < length (supply_of self.now) }
        ensures value { result ≡ with_null (supply_of self.now) (suc k)
            *ℤ (unit_gain (reserve_of self.now) (with_null prices.now.items) (suc k) -ℤ unit_gain (reserve_of self.now) (plus (with_null prices.now.items) (members set)) (suc k)) }
        ensures range { (pos 0 ≤ℤ result) × (result ≤ℤ pos MOST_UNITS) }
    {
        let test = loses(self.reserve[k], prices[k], set.has(0), set.has(k + 1));
        supply_where(test, self.supply[k])
    }

    /// What all units of that good gain where each choice of the set falls by one.
    fn gain_at(&self, prices: &Prices, set: Set, k: usize) -> i64
        requires prices { HaveRoom (length (supply_of self.now)) prices.now.items }
        requires place { k < length (supply_of self.now) }
        ensures value { result ≡ with_null (supply_of self.now) (suc k)
            *ℤ (unit_gain (reserve_of self.now) (minus (with_null prices.now.items) (members set)) (suc k) -ℤ unit_gain (reserve_of self.now) (with_null prices.now.items) (suc k)) }
        ensures range { (pos 0 ≤ℤ result) × (result ≤ℤ pos MOST_UNITS) }
    {
        let test = gains(self.reserve[k], prices[k], set.has(0), set.has(k + 1));
        supply_where(test, self.supply[k])
    }

    /// Over how many steps of the set all units of that good lose equally.
    fn span_at(&self, prices: &Prices, set: Set, k: usize) -> i64
        requires prices { HaveRoom (length (supply_of self.now)) prices.now.items }
        requires place { k < length (supply_of self.now) }
        ensures value { result ≡ good_reach (members set (suc k)) (with_null (supply_of self.now) (suc k)) (with_null (reserve_of self.now) (suc k)) (with_null prices.now.items (suc k)) }
        ensures range { (pos 1 ≤ℤ result) × (result ≤ℤ pos 8000000) }
    {
        span(set.has(k + 1), self.supply[k], self.reserve[k], prices[k])
    }
}

/// The value is the sum, over the goods, of the supply times what the reserve is above the price, the total is all units, and the tops are the reserves.
/// The reach is the least that a reserve is above its price, of the goods of the set that are for sale and priced below their reserves.
impl Convex for Seller {
    ghost use Rattle.std.specs.Prelude.{length};
    ghost use Rattle.mix_num.specs.Sellers.{units, seller_gain};
    ghost use Rattle.mix_num.specs.Vectors.{with_null};
    ghost use Rattle.mix_seller.specs.Laws.{seller_l_natural};
    ghost use Rattle.mix_seller.specs.Reaches.{seller_reach};

    ghost goods = { λ seller. length seller.supply.items };

    ghost total = { λ seller. units seller.supply.items };

    ghost top = { λ seller. with_null seller.reserve.items };

    ghost function = { λ seller. seller_gain seller.supply.items seller.reserve.items };

    ghost reach = { λ seller. seller_reach seller.supply.items seller.reserve.items };

    ghost l_natural = { λ seller. seller_l_natural seller.supply.items seller.reserve.items seller.for_sale };

    fn goods(&self) -> usize {
        self.supply.len()
    }

    fn total(&self) -> i64 {
        let mut sum = 0;
        for k in 0..self.supply.len() {
            sum += self.supply[k];
        }
        sum
    }

    fn top(&self, good: usize) -> i64 {
        self.reserve[good - 1]
    }

    fn value(&self, prices: &Prices) -> i64 {
        let mut sum = 0;
        for k in 0..self.supply.len() {
            sum += self.left_at(prices, k);
        }
        sum
    }

    fn fall(&self, prices: &Prices, set: Set) -> i64 {
        let mut sum = 0;
        for k in 0..self.supply.len() {
            sum += self.loss_at(prices, set, k);
        }
        sum
    }

    fn gain_down(&self, prices: &Prices, set: Set) -> i64 {
        let mut sum = 0;
        for k in 0..self.supply.len() {
            sum += self.gain_at(prices, set, k);
        }
        sum
    }

    fn reach(&self, prices: &Prices, set: Set) -> i64 {
        let mut least: i64 = 8_000_000;
        for k in 0..self.supply.len() {
            least = least.min(self.span_at(prices, set, k));
        }
        least
    }
}
