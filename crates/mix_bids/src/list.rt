// A list of bids over the same goods.
ghost use Rattle.std.specs.Prelude.{◌≡◌, ◌≤◌, ◌<◌, ◌↔◌, min, ◌++◌, ◌∷◌, [], length, pos, ◌≤ℤ◌, ◌-ℤ◌, true, false, int_lt, OnErr, OnOk, IfOk};
ghost use Rattle.mix_num.specs.Vectors.{members, minus, plus, with_null};
ghost use Rattle.mix_num.specs.Ranges.{ArePrices, Lies};
ghost use Rattle.mix_num.specs.Sellers.{IsAmount};
ghost use Rattle.mix_bids.specs.Cells.{cells as cells_of};
ghost use Rattle.mix_bids.specs.Bids.{facet_weight as facet_weight_of, top_value, total_weight, utility as utility_of, weight_meeting, weight_within, AreBids, IsBid};

use crate::best::best_set;
use crate::bid::Bid;
use crate::choices::{lies_in, meets, pair_of};
use crate::counts::{Counts, tally_with};
use crate::gain::{better, gain};
use crate::sums::{weigh, weight_where};
use mix_num::{Memory, Prices, Set};
use std::alloc::Global;
use std::marker::Model;

/// At most 400 bids over 1 to 8 goods, and how many cells they have, counted to 4,194,305. Each bid of negative weight keeps how many
/// different leads there are at its levels, so that a push need not count them anew.
#[derive(Drop)]
pub struct BidList {
    goods: usize,
    bids: Vec<Bid>,
    kept: Vec<Counts>,
    cells: u64,
}

impl Model for BidList {
    ghost use Rattle.std.specs.Prelude.{◌≡◌, ◌≤◌, length, min};
    ghost use Rattle.mix_bids.specs.Bids.{AreBids, Book};
    ghost use Rattle.mix_bids.specs.Cells.{cells as cells_of};
    ghost use Rattle.mix_bids.specs.Counted.{AreKept};

    ghost Value = { Book };

    ghost view = { λ list. record { goods = list.goods; bids = list.bids.items } };

    ghost invariant = { λ list. (1 ≤ list.goods) × (list.goods ≤ 8) × (length list.bids.items ≤ 400) × AreBids list.goods list.bids.items × AreKept list.goods list.bids.items list.kept.items × (list.cells ≡ min (cells_of (record { goods = list.goods; bids = list.bids.items })) 4194305) };
}

impl BidList {
    /// The empty list over 1 to 8 goods. It takes no memory, and keeps the allocator.
    pub fn new(alloc: Global, goods: usize) -> BidList
        requires { (1 ≤ goods) × (goods ≤ 8) }
        ensures { result ≡ record { goods = goods; bids = [] } }
    {
        BidList {
            goods,
            bids: Vec::new(alloc),
            kept: Vec::new(alloc),
            cells: 0,
        }
    }

    /// Adds a bid at the end. Where memory is wanting, the list stays as it is and the bid is dropped.
    pub fn push(&mut self, bid: Bid) -> Result<(), Memory>
        requires bid { IsBid self.old.goods bid }
        requires room { length self.old.bids < 400 }
        ensures ok { OnOk result (self.new ≡ record self.old { bids = self.old.bids ++ bid ∷ [] }) }
        ensures err { OnErr result (self.new ≡ self.old) }
    {
        if bid.is_negative() {
            self.push_negative(bid)
        } else {
            self.push_positive(bid)
        }
    }

    /// Adds a bid of positive weight, which changes no level.
    fn push_positive(&mut self, bid: Bid) -> Result<(), Memory>
        requires bid { IsBid self.old.goods bid }
        requires positive { int_lt bid.weight (pos 0) ≡ false }
        requires room { length self.old.bids < 400 }
        ensures ok { OnOk result (self.new ≡ record self.old { bids = self.old.bids ++ bid ∷ [] }) }
        ensures err { OnErr result (self.new ≡ self.old) }
    {
        self.bids.push(bid)?;
        Ok(())
    }

    /// Adds a bid of negative weight, which keeps how many leads there are at its levels.
    fn push_negative(&mut self, bid: Bid) -> Result<(), Memory>
        requires bid { IsBid self.old.goods bid }
        requires negative { int_lt bid.weight (pos 0) ≡ true }
        requires room { length self.old.bids < 400 }
        ensures ok { OnOk result (self.new ≡ record self.old { bids = self.old.bids ++ bid ∷ [] }) }
        ensures err { OnErr result (self.new ≡ self.old) }
    {
        let tally = tally_with(self.goods, &self.bids, &self.kept, self.cells, &bid);
        self.kept.push(tally.counts)?;
        let Ok(()) = self.bids.push(bid) else {
            self.kept.pop();
            return Err(Memory);
        };
        self.cells = tally.cells;
        Ok(())
    }

    /// An equal list, or want of memory.
    pub fn copy(&self, alloc: Global) -> Result<BidList, Memory>
        ensures { IfOk result (λ list. list ≡ self.now) }
    {
        let kept = Vec::from_slice(alloc, &self.kept)?;
        let bids = copies(alloc, &self.bids)?;
        Ok(BidList {
            goods: self.goods,
            bids,
            kept,
            cells: self.cells,
        })
    }

    /// The number of goods, from 1 to 8.
    pub fn goods(&self) -> usize
        ensures value { result ≡ self.now.goods }
        ensures range { (1 ≤ result) × (result ≤ 8) }
    {
        self.goods
    }

    /// The bids in order.
    pub fn bids(&self) -> &[Bid]
        ensures value { result.now ≡ self.now.bids }
        ensures goods { (1 ≤ self.now.goods) × (self.now.goods ≤ 8) }
        ensures few { length result.now ≤ 400 }
        ensures proper { AreBids self.now.goods result.now }
    {
        &self.bids
    }

    /// The number of cells, or 4,194,305 where there are more. It takes no memory.
    pub fn cells(&self) -> u64
        ensures value { result ≡ min (cells_of self.now) 4194305 }
        ensures limit { (4194304 < result) ↔ (4194304 < cells_of self.now) }
    {
        self.cells
    }

    /// The indirect utility at the prices: the sum of weight times gain. Its size is at most 2 * 10^13. It takes no memory.
    pub fn utility(&self, prices: &Prices) -> i64
        requires { ArePrices self.now.goods prices.now.items }
        ensures value { result ≡ utility_of self.now.bids (with_null prices.now.items) }
        ensures range { Lies 20000000000000 result }
    {
        let mut sum = 0;
        for bid in self.bids() {
            sum += weigh(bid.weight, gain(&bid.values, prices));
        }
        sum
    }

    /// The facet weight at the prices: the sum of the weights of the bids whose best set is exactly the two choices. It takes no memory.
    pub fn facet_weight(&self, first: usize, second: usize, prices: &Prices) -> i64
        requires choices { (first < second) × (second ≤ self.now.goods) }
        requires prices { ArePrices self.now.goods prices.now.items }
        ensures value { result ≡ facet_weight_of self.now.goods first second self.now.bids (with_null prices.now.items) }
        ensures range { Lies 4000000 result }
    {
        let bids = self.bids();
        let facet = pair_of(first, second);
        let mut sum = 0;
        for bid in bids {
            sum += weight_where(best_set(bid, prices) == facet, bid.weight);
        }
        sum
    }

    /// The total: the sum of the weights. It takes no memory.
    pub fn total(&self) -> i64
        ensures value { result ≡ total_weight self.now.bids }
        ensures range { Lies 4000000 result }
    {
        let mut sum = 0;
        for bid in self.bids() {
            sum += bid.weight;
        }
        sum
    }

    /// The greatest value that a bid offers for a good, numbered from 1, or 0 where no bid offers it. It takes no memory.
    pub fn top(&self, good: usize) -> i64
        requires { (1 ≤ good) × (good ≤ self.now.goods) }
        ensures value { result ≡ top_value self.now.bids good }
        ensures range { IsAmount result }
    {
        let mut greatest = 0;
        for bid in self.bids() {
            greatest = better(bid.values[good - 1], 0, greatest);
        }
        greatest
    }

    /// By how much the utility falls where the prices of the set rise by one: the sum of the weights of the bids whose best set lies
    /// in the set. It takes no memory.
    pub fn fall(&self, prices: &Prices, set: Set) -> i64
        requires { ArePrices self.now.goods prices.now.items }
        ensures sum { result ≡ weight_within self.now.goods (members set) self.now.bids (with_null prices.now.items) }
        ensures value { let x = with_null prices.now.items in result ≡ utility_of self.now.bids x -ℤ utility_of self.now.bids (plus x (members set)) }
        ensures range { Lies 4000000 result }
    {
        let mut sum = 0;
        for bid in self.bids() {
            sum += weight_where(lies_in(best_set(bid, prices), set), bid.weight);
        }
        sum
    }

    /// By how much the utility rises where the prices of the set fall by one: the sum of the weights of the bids whose best set
    /// meets the set. It takes no memory.
    pub fn gain_down(&self, prices: &Prices, set: Set) -> i64
        requires { ArePrices self.now.goods prices.now.items }
        ensures sum { result ≡ weight_meeting self.now.goods (members set) self.now.bids (with_null prices.now.items) }
        ensures value { let x = with_null prices.now.items in result ≡ utility_of self.now.bids (minus x (members set)) -ℤ utility_of self.now.bids x }
        ensures range { Lies 4000000 result }
    {
        let mut sum = 0;
        for bid in self.bids() {
            sum += weight_where(meets(best_set(bid, prices), set), bid.weight);
        }
        sum
    }
}

/// Equal bids, or want of memory.
fn copies(alloc: Global, bids: &[Bid]) -> Result<Vec<Bid>, Memory>
    ensures { IfOk result (λ copies. copies.items ≡ bids.now) }
{
    let mut copies = Vec::new(alloc);
    for bid in bids {
        copies.push(bid.copy())?;
    }
    Ok(copies)
}
