// The candidates of a coordinate.
ghost use Rattle.std.specs.Prelude.{◌≡◌, ◌↔◌, ◌≤◌, ℤ, cond, eqb, length, None, Some, Contains, All, IfOk, filter_map};
ghost use Rattle.mix_num.specs.Ranges.{Lies};
ghost use Rattle.mix_bids.specs.Bids.{IsBid};
ghost use Rattle.mix_facets.specs.Levels.{bids_of, IsLevelOf};
ghost use Rattle.mix_facets.specs.Points.{IsCoordinate, IsNullCoordinate};
ghost use Rattle.mix_facets.specs.Candidates.{counting_from as counting_from_of, lesser as lesser_of, lowest as lowest_of};
ghost use Rattle.mix_facets.specs.Grids.{AreCandidates};

use crate::level::Level;
use crate::numbers::Numbers;
use mix_bids::{Bid, BidList, lead, negative_lead};
use mix_num::{MOST_VALUE, Memory};
use std::alloc::Global;

/// The candidates of a choice at a level of the list, each once, or want of memory.
pub(crate) fn candidates_of(
    alloc: Global,
    list: &BidList,
    level: &Level,
    choice: usize,
) -> Result<Numbers, Memory>
    requires level { IsLevelOf list.now level.now }
    requires choice { choice ≤ list.now.goods }
    ensures { IfOk result (AreCandidates list.now level.now choice) }
{
    let mut numbers = counts_of(alloc, list, level, choice)?;
    numbers.insert(lowest_of_good(list, level, choice))?;
    Ok(numbers)
}

/// The coordinates from which on the level's bids of negative weight are counted.
fn counts_of(alloc: Global, list: &BidList, level: &Level, choice: usize) -> Result<Numbers, Memory>
    requires level { IsLevelOf list.now level.now }
    requires choice { choice ≤ list.now.goods }
    ensures members { IfOk result (λ numbers. (u : ℤ) → Contains numbers u ↔ Contains (filter_map (counting_from_of level.now.first choice) (bids_of list.now level.now)) u) }
    ensures few { IfOk result (λ numbers. length numbers ≤ 400) }
    ensures near { IfOk result (All IsCoordinate) }
    ensures null { IfOk result (λ numbers. choice ≡ 0 → All IsNullCoordinate numbers) }
{
    let mut numbers = Numbers::new(alloc);
    for number in 0..level.count(list) {
        numbers.insert(counting_from(level.bid(list, number), choice, level.first))?;
    }
    Ok(numbers)
}

/// The coordinate from which on a bid of negative weight that offers both choices is counted.
fn counting_from(bid: &Bid, choice: usize, first: usize) -> Option<i64>
    requires choice { choice ≤ length bid.now.values.items }
    requires first { first ≤ length bid.now.values.items }
    requires bid { IsBid (length bid.now.values.items) bid.now }
    ensures value { result ≡ counting_from_of first choice bid.now }
    ensures near { (u : ℤ) → result ≡ Some u → IsCoordinate u }
    ensures null { (u : ℤ) → choice ≡ 0 → result ≡ Some u → IsNullCoordinate u }
{
    match negative_lead(bid, choice, first) {
        Some(lead) => Some(lead + 1),
        None => None,
    }
}

/// The coordinate of a good at which no bid of the level that offers it is counted. The null choice has none.
fn lowest_of_good(list: &BidList, level: &Level, choice: usize) -> Option<i64>
    requires level { IsLevelOf list.now level.now }
    requires choice { choice ≤ list.now.goods }
    ensures value { result ≡ cond (eqb choice 0) None (Some (lowest_of level.now.first choice (bids_of list.now level.now))) }
    ensures near { (u : ℤ) → result ≡ Some u → IsCoordinate u }
{
    if choice == 0 {
        return None;
    }
    Some(lowest(list, level, choice))
}

/// The least lead of a choice among the level's bids that offer it, or 0 where none does.
fn lowest(list: &BidList, level: &Level, choice: usize) -> i64
    requires level { IsLevelOf list.now level.now }
    requires choice { choice ≤ list.now.goods }
    ensures value { result ≡ lowest_of level.now.first choice (bids_of list.now level.now) }
    ensures range { Lies MOST_VALUE result }
{
    let mut least = None;
    for number in 0..level.count(list) {
        least = lesser(least, lead(level.bid(list, number), choice, level.first));
    }
    least.unwrap_or(0)
}

/// The lesser of two numbers, or the one that is there.
fn lesser(one: Option<i64>, other: Option<i64>) -> Option<i64>
    requires one { (v : ℤ) → one ≡ Some v → Lies MOST_VALUE v }
    requires other { (v : ℤ) → other ≡ Some v → Lies MOST_VALUE v }
    ensures value { result ≡ lesser_of one other }
    ensures range { (v : ℤ) → result ≡ Some v → Lies MOST_VALUE v }
{
    match one {
        Some(one) => match other {
            Some(other) => Some(one.min(other)),
            None => Some(one),
        },
        None => other,
    }
}
