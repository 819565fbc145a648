// The bids of one bidder.
ghost use Rattle.std.specs.Prelude.{◌≡◌, ◌<◌, ◌≤◌, ◌+◌, ◌++◌, ◌∷◌, [], None, Some, neg_ℤ, replicate, pos, length, IfOk, OnOk};
ghost use Rattle.mix_bids.specs.Bids.{IsBid};
ghost use Rattle.mix_bids.specs.Offers.{offers_some};
ghost use Rattle.mix_trial.specs.Words.{words_of};
ghost use Rattle.mix_trial.specs.Draws.{alone, for_each};
ghost use Rattle.mix_trial.specs.Trials.{bid_of, bids, block, offering as offering_of, one_value as one_value_of, single, two_values as two_values_of, value};

use crate::draws::{GOODS, draw};
use mix_bids::{Bid, BidList, Values};
use mix_num::Memory;
use rand_pcg::Lcg64Xsh32;
use std::alloc::Global;

// The blocks of a bidder, and the single bids after them.
const BLOCKS: usize = 4;

const SINGLES: usize = 16;

// No value for any of five goods.
fn no_values() -> Values
    ensures { result.items ≡ replicate 5 None }
{
    let mut values = Values::new();
    for _good in 0..GOODS {
        values.push(None);
    }
    values
}

// A value for the good at a place alone.
fn one_value(place: usize, value: i64) -> Values
    requires { place < 5 }
    ensures { result.items ≡ one_value_of place value }
{
    let mut values = no_values();
    values[place] = Some(value);
    values
}

// A value for each of two goods at their places.
fn two_values(place: usize, value: i64, second: usize, other: i64) -> Values
    requires { (place < 5) × (second < 5) }
    ensures { result.items ≡ two_values_of place value second other }
{
    let mut values = one_value(place, value);
    values[second] = Some(other);
    values
}

// A bid for the good at a place alone.
#[tactic(auto, using(crate::proofs::TrialBids::one_is, crate::proofs::TrialBids::weight_is, crate::proofs::TrialBids::small))]
fn one_bid(weight: u32, place: usize, value: u32) -> Bid
    requires weight { (1 ≤ weight) × (weight ≤ 9) }
    requires place { place < 5 }
    requires value { value < 1000 }
    ensures value { result ≡ bid_of (pos weight) (one_value_of place (pos value)) }
    ensures proper { IsBid 5 result }
{
    Bid {
        weight: i64::from(weight),
        values: one_value(place, i64::from(value)),
    }
}

// A bid for the goods at two places.
#[tactic(auto, using(crate::proofs::TrialBids::two_is, crate::proofs::TrialBids::weight_is, crate::proofs::TrialBids::small))]
fn two_bid(weight: u32, first: usize, value: u32, second: usize, other: u32) -> Bid
    requires weight { (1 ≤ weight) × (weight ≤ 9) }
    requires places { (first < 5) × (second < 5) }
    requires values { (value < 1000) × (other < 1000) }
    ensures value { result ≡ bid_of (pos weight) (two_values_of first (pos value) second (pos other)) }
    ensures proper { IsBid 5 result }
{
    Bid {
        weight: i64::from(weight),
        values: two_values(first, i64::from(value), second, i64::from(other)),
    }
}

// The same bid, taken back.
#[tactic(auto, using(crate::proofs::TrialBids::two_is, crate::proofs::TrialBids::taken_back, crate::proofs::TrialBids::small))]
fn two_bid_back(weight: u32, first: usize, value: u32, second: usize, other: u32) -> Bid
    requires weight { (1 ≤ weight) × (weight ≤ 9) }
    requires places { (first < 5) × (second < 5) }
    requires values { (value < 1000) × (other < 1000) }
    ensures value { result ≡ bid_of (neg_ℤ (pos weight)) (two_values_of first (pos value) second (pos other)) }
    ensures proper { IsBid 5 result }
{
    Bid {
        weight: -i64::from(weight),
        values: two_values(first, i64::from(value), second, i64::from(other)),
    }
}

// Adds a bid over five goods.
fn add(list: &mut BidList, bid: Bid) -> Result<(), Memory>
    requires goods { list.old.goods ≡ 5 }
    requires bid { IsBid 5 bid }
    requires room { length list.old.bids < 400 }
    ensures { OnOk result (list.new ≡ record { goods = 5; bids = list.old.bids ++ bid ∷ [] }) }
{
    list.push(bid)
}

// Adds the four bids of a block.
fn add_block(list: &mut BidList, words: &mut Lcg64Xsh32) -> Result<(), Memory>
    requires goods { list.old.goods ≡ 5 }
    requires room { length list.old.bids + 4 ≤ 400 }
    ensures added { OnOk result (list.new ≡ record { goods = 5; bids = list.old.bids ++ (block (words_of words.old)).0 }) }
    ensures rest { OnOk result (words_of words.new ≡ (block (words_of words.old)).1) }
{
    let first = draw(words, 5) as usize;
    let second = (first + (1 + draw(words, 4) as usize)) % 5;
    let weight = 1 + draw(words, 9);
    let low = draw(words, 800);
    let other = draw(words, 800);
    let more = draw(words, 200);
    add(list, one_bid(weight, first, low))?;
    add(list, one_bid(weight, second, other))?;
    add(
        list,
        two_bid(weight, first, low + more, second, other + more),
    )?;
    add(list, two_bid_back(weight, first, low, second, other))
}

// A value that is there.
fn offered(value: u32) -> Option<i64>
    ensures { result ≡ Some (pos value) }
{
    Some(i64::from(value))
}

// A value of a single bid: in one case of three the good is left out.
#[tactic(auto, using(crate::proofs::TrialBids::value_none))]
fn draw_value(words: &mut Lcg64Xsh32) -> Option<i64>
    ensures value { result ≡ (value (words_of words.old)).0 }
    ensures rest { words_of words.new ≡ (value (words_of words.old)).1 }
{
    if draw(words, 3) == 0 {
        return None;
    }
    offered(draw(words, 1000))
}

// A value of a single bid for each of five goods.
fn draw_values(words: &mut Lcg64Xsh32) -> Values
    ensures value { result.items ≡ (for_each 5 1 (λ _. alone value) (words_of words.old)).0 }
    ensures rest { words_of words.new ≡ (for_each 5 1 (λ _. alone value) (words_of words.old)).1 }
{
    let mut values = Values::new();
    for _good in 0..GOODS {
        values.push(draw_value(words));
    }
    values
}

// Whether any value is there.
fn offers_any(values: &Values) -> bool
    ensures { result ≡ offers_some values.now.items }
{
    values.iter().any(|value| value.is_some())
}

// Values of which one is there: where none is, the first good at 500.
#[tactic(auto, using(crate::proofs::TrialBids::offering_none))]
fn offering(values: Values) -> Values
    ensures { result.items ≡ offering_of values.items }
{
    if offers_any(&values) {
        return values;
    }
    one_value(0, 500)
}

// A single bid.
#[tactic(auto, using(crate::proofs::TrialBids::single_is), unfolding(crate::specs::Trials::single))]
fn draw_single(words: &mut Lcg64Xsh32) -> Bid
    ensures value { result ≡ (single (words_of words.old)).0 }
    ensures rest { words_of words.new ≡ (single (words_of words.old)).1 }
    ensures proper { IsBid 5 result }
{
    let weight = i64::from(1 + draw(words, 9));
    let values = draw_values(words);
    Bid {
        weight,
        values: offering(values),
    }
}

// Adds four blocks to a list of no bids.
fn add_blocks(list: &mut BidList, words: &mut Lcg64Xsh32) -> Result<(), Memory>
    requires { list.old ≡ record { goods = 5; bids = [] } }
    ensures added { OnOk result (list.new ≡ record { goods = 5; bids = (for_each 4 1 (λ _. block) (words_of words.old)).0 }) }
    ensures rest { OnOk result (words_of words.new ≡ (for_each 4 1 (λ _. block) (words_of words.old)).1) }
    ensures size { OnOk result (length list.new.bids ≡ 16) }
{
    for _block in 0..BLOCKS {
        add_block(list, words)?;
    }
    Ok(())
}

// Adds sixteen single bids to a list of as many.
fn add_singles(list: &mut BidList, words: &mut Lcg64Xsh32) -> Result<(), Memory>
    requires goods { list.old.goods ≡ 5 }
    requires size { length list.old.bids ≡ 16 }
    ensures added { OnOk result (list.new ≡ record { goods = 5; bids = list.old.bids ++ (for_each 16 1 (λ _. alone single) (words_of words.old)).0 }) }
    ensures rest { OnOk result (words_of words.new ≡ (for_each 16 1 (λ _. alone single) (words_of words.old)).1) }
{
    for _bid in 0..SINGLES {
        add(list, draw_single(words))?;
    }
    Ok(())
}

/// The bids of one bidder over five goods: four blocks, and then sixteen single bids.
pub fn draw_bids(alloc: Global, words: &mut Lcg64Xsh32) -> Result<BidList, Memory>
    ensures value { IfOk result (λ list. list ≡ record { goods = 5; bids = (bids (words_of words.old)).0 }) }
    ensures rest { OnOk result (words_of words.new ≡ (bids (words_of words.old)).1) }
{
    let mut list = BidList::new(alloc, 5);
    add_blocks(&mut list, words)?;
    add_singles(&mut list, words)?;
    Ok(list)
}
