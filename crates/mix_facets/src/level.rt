// A level of a list, and the places of its bids.
ghost use Rattle.std.specs.Prelude.{◌≡◌, ◌<◌, ◌≤◌, ◌++◌, ◌∷◌, [], cond, length, slice_index_or, IfOk, OnOk};
ghost use Rattle.mix_num.specs.Ranges.{Lies};
ghost use Rattle.mix_bids.specs.Bids.{AreBids, IsBid};
ghost use Rattle.mix_bids.specs.Levels.{has_lead};
ghost use Rattle.mix_facets.specs.Levels.{bids_of, level_at, places as places_where, IsLevelOf};

use mix_bids::{Bid, BidList, has_difference};
use mix_num::{MOST_VALUE, Memory};
use std::alloc::Global;
use std::marker::Model;

/// Where bids of negative weight are torn between two choices: a difference `b_first - b_second`, and the places in
/// the list of all bids that offer both choices and have it.
#[derive(Drop)]
pub struct Level {
    pub(crate) goods: usize,
    pub(crate) first: usize,
    pub(crate) second: usize,
    pub(crate) difference: i64,
    pub(crate) places: Vec<usize>,
}

impl Model for Level {
    ghost use Rattle.std.specs.Prelude.{◌<◌, ◌≤◌};
    ghost use Rattle.mix_num.specs.Ranges.{Lies};
    ghost use Rattle.mix_num.specs.declared.limits.TheConstants.{MOST_VALUE};
    ghost use Rattle.mix_facets.specs.Levels.{Level};

    ghost Value = { Level };

    ghost view = { λ level. record {
      goods = level.goods;
      first = level.first;
      second = level.second;
      difference = level.difference;
      places = level.places.items;
    } };

    ghost invariant = { λ level. (level.first < level.second) × (level.second ≤ level.goods) × (level.goods ≤ 8) × Lies MOST_VALUE level.difference };
}

impl Level {
    /// The level of the list at a difference, or want of memory.
    pub(crate) fn of(
        alloc: Global,
        list: &BidList,
        first: usize,
        second: usize,
        difference: i64,
    ) -> Result<Level, Memory>
        requires order { first < second }
        requires within { second ≤ list.now.goods }
        requires difference { Lies MOST_VALUE difference }
        ensures { IfOk result (λ level. level ≡ level_at list.now first second difference) }
    {
        let goods = list.goods();
        let places = places_of(alloc, list, first, second, difference)?;
        Ok(Level {
            goods,
            first,
            second,
            difference,
            places,
        })
    }

    /// How many bids the level has, at most 400.
    pub(crate) fn count(&self, list: &BidList) -> usize
        requires { IsLevelOf list.now self.now }
        ensures value { result ≡ length (bids_of list.now self.now) }
        ensures few { result ≤ 400 }
        ensures proper { AreBids list.now.goods list.now.bids }
    {
        // Whoever asks the list for its bids knows that there are at most 400.
        let _bids = list.bids();
        self.places.len()
    }

    /// A bid of the level.
    pub(crate) fn bid<'a>(&self, list: &'a BidList, number: usize) -> &'a Bid
        requires level { IsLevelOf list.now self.now }
        requires number { number < length (bids_of list.now self.now) }
        ensures value { result.now ≡ slice_index_or (bids_of list.now self.now) number result.now }
        ensures proper { IsBid list.now.goods result.now }
    {
        &list.bids()[self.places[number]]
    }
}

/// The places of the bids that offer both choices and value the first above the second by `difference`.
fn places_of(
    alloc: Global,
    list: &BidList,
    first: usize,
    second: usize,
    difference: i64,
) -> Result<Vec<usize>, Memory>
    requires first { first ≤ list.now.goods }
    requires second { second ≤ list.now.goods }
    requires difference { Lies MOST_VALUE difference }
    ensures { IfOk result (λ found. found.items ≡ places_where (has_lead first second difference) 0 list.now.bids) }
{
    let mut places = Vec::new(alloc);
    for (place, bid) in list.bids().iter().enumerate() {
        push_if(
            &mut places,
            has_difference(bid, first, second, difference),
            place,
        )?;
    }
    Ok(places)
}

/// Adds a place at the end where it is wanted.
fn push_if(places: &mut Vec<usize>, wanted: bool, place: usize) -> Result<(), Memory>
    ensures { OnOk result (places.new.items ≡ places.old.items ++ cond wanted (place ∷ []) []) }
{
    if !wanted {
        return Ok(());
    }
    places.push(place)?;
    Ok(())
}
