// Prices at which two lists may be told apart, in the order in which they are tried.
ghost use Rattle.std.specs.Prelude.{◌≡◌, ◌≤◌, ◌^◌, ℕ, ℤ, List, pos, negsuc, length, replicate, All, MatchOption, ◌≤ℤ◌};
ghost use Rattle.mix_num.specs.Vectors.{members, with_null};
ghost use Rattle.mix_num.specs.Moves.{IsSetOfGoods};
ghost use Rattle.mix_bids.specs.Offers.{AreOffers};
ghost use Rattle.mix_canon.specs.Searches.{AgreeAt, AgreeBeside, AgreeLow, AgreeRound, IsFirstBeside, IsFirstRound, IsFirstTried, IsNear, IsOwn, IsTold, price_of, prices_of};

use crate::likeness::Likeness;
use mix_bids::{BidList, Values};
use mix_num::{Prices, Set, lower, raise};

/// The two utilities at -1, or at -2, in every good, where they differ there.
pub fn told_low(first: &BidList, second: &BidList) -> Option<Likeness>
    requires { first.now.goods ≡ second.now.goods }
    ensures { MatchOption result (AgreeLow first.now.goods first.now.bids second.now.bids) (IsTold first.now second.now (IsFirstTried first.now.goods first.now.bids second.now.bids)) }
{
    let goods = first.goods();
    if let Some(told) = told_at(first, second, flat(goods, -1)) {
        return Some(told);
    }
    told_at(first, second, flat(goods, -2))
}

/// The two utilities near a value vector's own numbers, where they differ there.
pub fn told_round(first: &BidList, second: &BidList, values: &Values) -> Option<Likeness>
    requires goods { first.now.goods ≡ second.now.goods }
    requires values { AreOffers first.now.goods values.now.items }
    ensures { MatchOption result (AgreeRound first.now.goods first.now.bids second.now.bids values.now.items) (IsTold first.now second.now (IsFirstRound first.now.goods first.now.bids second.now.bids values.now.items)) }
{
    let goods = first.goods();
    let prices = own_prices(values);
    for number in 0..sets_of(goods) {
        if let Some(told) = told_beside(first, second, &prices, Set::from_bits(2 * number)) {
            return Some(told);
        }
    }
    None
}

/// The two utilities where a set of goods is raised, or lowered, by one, if they differ there.
fn told_beside(first: &BidList, second: &BidList, prices: &Prices, set: Set) -> Option<Likeness>
    requires goods { first.now.goods ≡ second.now.goods }
    requires size { length prices.now.items ≡ first.now.goods }
    requires prices { All IsOwn prices.now.items }
    requires set { IsSetOfGoods first.now.goods set }
    ensures { MatchOption result (AgreeBeside first.now.bids second.now.bids (with_null prices.now.items) set) (IsTold first.now second.now (IsFirstBeside first.now.goods first.now.bids second.now.bids (with_null prices.now.items) set)) }
{
    // Whoever asks a list for its bids knows their ranges.
    let _bids = first.bids();
    let _more = second.bids();
    if let Some(told) = told_at(first, second, raise(prices, set, 1)) {
        return Some(told);
    }
    told_at(first, second, lower(prices, set, 1))
}

/// The two utilities at the prices, where they differ.
fn told_at(first: &BidList, second: &BidList, prices: Prices) -> Option<Likeness>
    requires goods { first.now.goods ≡ second.now.goods }
    requires size { length prices.items ≡ first.now.goods }
    requires near { All IsNear prices.items }
    ensures { MatchOption result (AgreeAt first.now.bids second.now.bids (with_null prices.items)) (IsTold first.now second.now (λ (p : List ℤ). p ≡ prices.items)) }
{
    let left = first.utility(&prices);
    let right = second.utility(&prices);
    if left == right {
        return None;
    }
    Some(Likeness::Differ {
        prices,
        first: left,
        second: right,
    })
}

/// The same price for every good.
fn flat(goods: usize, price: i64) -> Prices
    requires { goods ≤ 8 }
    ensures { result.items ≡ replicate goods price }
{
    let mut prices = Prices::new();
    for _good in 0..goods {
        prices.push(price);
    }
    prices
}

/// The prices that are the value vector's own numbers, and -1 where it has none.
fn own_prices(values: &Values) -> Prices
    requires { length values.now.items ≤ 8 }
    ensures { result.items ≡ prices_of values.now.items }
{
    let offers = values.as_slice();
    let mut prices = Prices::new();
    for offer in offers {
        prices.push(price(*offer));
    }
    prices
}

/// The value, or -1 where there is none.
fn price(offer: Option<i64>) -> i64
    ensures { result ≡ price_of offer }
{
    match offer {
        Some(value) => value,
        None => -1,
    }
}

/// How many sets `n` goods have.
fn sets_of(n: usize) -> u16
    requires { n ≤ 8 }
    ensures value { result ≡ 2 ^ n }
    ensures range { result ≤ 256 }
{
    1 << n
}
