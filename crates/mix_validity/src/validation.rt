// Exact validity: a list is convex where the search for a facet of negative weight finds none.
ghost use Rattle.std.specs.Prelude.{◌≡◌, ◌<◌, ◌≤◌, pos, ◌≤ℤ◌, IfErr, IfOk, MatchOption};
ghost use Rattle.mix_bids.specs.Bids.{facet_weight, NoneNegative};
ghost use Rattle.mix_bids.specs.Convexity.{IsConvexList};
ghost use Rattle.mix_facets.specs.Levels.{IsLevelOf};
ghost use Rattle.mix_facets.specs.Points.{prices_at, IsPoint};
ghost use Rattle.mix_validity.specs.Refusals.{HasFacet, ShowsNotConvex};
ghost use Rattle.mix_validity.specs.Searches.{IsClear, IsClearAt, IsClearFrom};
ghost use Rattle.mix_validity.specs.ValidLists.{book_of};

use crate::convexity::convex_where_none_negative;
use crate::refused::{NotValid, Refused};
use crate::valid_list::ValidList;
use mix_bids::BidList;
use mix_facets::{Level, grid_of, levels_of, lowest, price_of};
use mix_num::Memory;
use std::alloc::Global;

/// The list as a valid one, if it is convex over all rational prices, negative ones among them. A list that isn't is dropped.
///
/// `Refused::NotValid` comes exactly where the list isn't convex, and carries a facet of negative weight, which shows it.
/// `Refused::Memory` comes where memory is wanting.
pub fn validate(alloc: Global, list: BidList) -> Result<ValidList, Refused>
    ensures list { IfOk result (λ valid. book_of valid ≡ list) }
    ensures convex { IfOk result (λ valid. IsConvexList list.bids) }
    ensures refused { IfErr result (ShowsNotConvex list) }
{
    convex_where_none_negative(&list);
    match refusal_of(alloc, &list)? {
        Some(facet) => Err(Refused::NotValid(facet)),
        None => Ok(ValidList::new(list)),
    }
}

/// A facet of negative weight of any two choices.
fn refusal_of(alloc: Global, list: &BidList) -> Result<Option<NotValid>, Memory>
    ensures { IfOk result (λ found. MatchOption found (NoneNegative list.now.goods list.now.bids) (HasFacet list.now)) }
{
    for first in 0..list.goods() {
        if let Some(facet) = refusal_with_first(alloc, list, first)? {
            return Ok(Some(facet));
        }
    }
    Ok(None)
}

/// A facet of negative weight of a choice and a later one.
fn refusal_with_first(
    alloc: Global,
    list: &BidList,
    first: usize,
) -> Result<Option<NotValid>, Memory>
    requires { first < list.now.goods }
    ensures { IfOk result (λ found. MatchOption found (IsClearFrom list.now first) (HasFacet list.now)) }
{
    let goods = list.goods();
    for second in first + 1..goods + 1 {
        if let Some(facet) = refusal_of_pair(alloc, list, first, second)? {
            return Ok(Some(facet));
        }
    }
    Ok(None)
}

/// A facet of negative weight of two choices.
fn refusal_of_pair(
    alloc: Global,
    list: &BidList,
    first: usize,
    second: usize,
) -> Result<Option<NotValid>, Memory>
    requires order { first < second }
    requires within { second ≤ list.now.goods }
    ensures { IfOk result (λ found. MatchOption found (IsClear list.now first second) (HasFacet list.now)) }
{
    let levels = levels_of(alloc, list, first, second)?;
    for place in 0..levels.len() {
        if let Some(facet) = refusal_at_level(alloc, list, first, second, levels.level(place))? {
            return Ok(Some(facet));
        }
    }
    Ok(None)
}

/// A facet of negative weight of two choices, at prices that differ by the difference of a level of theirs.
fn refusal_at_level(
    alloc: Global,
    list: &BidList,
    first: usize,
    second: usize,
    level: &Level,
) -> Result<Option<NotValid>, Memory>
    requires level { IsLevelOf list.now level.now }
    requires first { level.now.first ≡ first }
    requires second { level.now.second ≡ second }
    ensures { IfOk result (λ found. MatchOption found (IsClearAt list.now first second level.now.difference) (HasFacet list.now)) }
{
    let grid = grid_of(alloc, list, level)?;
    let least = lowest(alloc, list, level, &grid)?;
    if least.weight >= 0 {
        return Ok(None);
    }
    Ok(Some(NotValid {
        first,
        second,
        prices: price_of(level, &grid.point(least.index)),
        weight: least.weight,
    }))
}
