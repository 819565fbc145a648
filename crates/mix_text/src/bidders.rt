// The bidders by name, in order of first appearance.
ghost use Rattle.std.specs.Prelude.{◌≡◌, ◌<◌, ◌≤◌, ◌∷◌, ◌++◌, [], None, length, map, remove, IfOk, IfSome, OnOk, OnErr};
ghost use Rattle.mix_bids.specs.Bids.{IsBid};
ghost use Rattle.mix_text.specs.Bidders.{list_at, name_at, place_of, with_bid_at};
ghost use Rattle.mix_text.specs.Changes.{one_bid};
ghost use Rattle.mix_text.specs.Formats.{AreLimits};
ghost use Rattle.mix_text.specs.Names.{AreNames};
ghost use Rattle.mix_text.specs.Reading.{list_limit_of};

use crate::bid_limits::push_within;
use crate::faults::What;
use crate::formats::Limits;
use crate::spelling::Name;
use indexmap::IndexMap;
use mix_bids::{Bid, BidList};
use mix_num::Memory;
use std::alloc::Global;
use std::marker::Model;

/// The bidders in order of first appearance, each with its name and the list of its bids.
#[derive(Drop)]
pub struct Bidders {
    named: IndexMap<Name, BidList>,
}

impl Model for Bidders {
    ghost use Rattle.std.specs.Prelude.{List, ℕ, map};
    ghost use Rattle.mix_bids.specs.Bids.{Book};

    ghost Value = { List (List ℕ × Book) };

    ghost view = { λ b. map (λ e. (e.0.bytes, e.1)) b.named.entries };
}

impl Bidders {
    /// No bidders.
    pub fn new(alloc: Global) -> Bidders
        ensures { result ≡ [] }
    {
        Bidders {
            named: IndexMap::new(alloc),
        }
    }

    /// Adds a bidder, whose name isn't there yet, at the end.
    pub fn add(&mut self, name: Name, list: BidList) -> Result<(), Memory>
        requires { place_of name.bytes self.old ≡ None }
        ensures ok { OnOk result (self.new ≡ self.old ++ (name.bytes, list) ∷ []) }
        ensures err { OnErr result (self.new ≡ self.old) }
    {
        let Ok(_) = self.named.insert(name, list) else {
            return Err(Memory);
        };
        Ok(())
    }

    /// The place of a name, from 0; None where it isn't there.
    pub fn find(&self, name: &Name) -> Option<usize>
        ensures place { result ≡ place_of name.now.bytes self.now }
        ensures within { IfSome result (λ k. k < length self.now) }
    {
        self.named.get_index_of(name)
    }

    /// How many bidders there are.
    pub fn count(&self) -> usize
        ensures { result ≡ length self.now }
    {
        self.named.len()
    }

    /// The name and the list of the bidder at a place, from 0.
    pub fn bidder(&self, k: usize) -> (&Name, &BidList)
        requires { k < length self.now }
        ensures name { result.0.now.bytes ≡ name_at self.now k }
        ensures list { result.1.now ≡ list_at self.now k }
    {
        self.named.get_index(k).unwrap()
    }

    // Equal bidders, of whom no two have the same name.
    pub(crate) fn copy(&self, alloc: Global) -> Result<Bidders, Memory>
        requires { AreNames (map (λ bidder. bidder.0) self.now) }
        ensures { IfOk result (λ bidders. bidders ≡ self.now) }
    {
        let mut bidders = Bidders::new(alloc);
        for k in 0..self.count() {
            let (name, list) = self.bidder(k);
            bidders.add(*name, list.copy(alloc)?)?;
        }
        Ok(bidders)
    }

    /// Adds a bid at the end of the list of the bidder at a place, from 0, unless it would be one too many, and gives the
    /// first limit that it passes.
    ///
    /// Where it passes a limit, or memory is wanting, the bidders are of no further use.
    pub(crate) fn push_within(
        &mut self,
        k: usize,
        limits: &Limits,
        bid: Bid,
    ) -> Result<Option<What>, Memory>
        requires limits { AreLimits limits.now }
        requires place { k < length self.old }
        requires bid { IsBid (list_at self.old k).goods bid }
        ensures limit { IfOk result (λ limit. limit ≡ list_limit_of limits.now (list_at self.old k) bid) }
        ensures added { IfOk result (λ limit. limit ≡ None → self.new ≡ with_bid_at self.old k bid) }
    {
        push_within(limits, &mut self.named[k], bid)
    }

    // Adds a bid at the end of the list of the bidder at a place, from 0. Where memory is wanting, the bidders stay as they were.
    pub(crate) fn push(&mut self, k: usize, bid: Bid) -> Result<(), Memory>
        requires place { k < length self.old }
        requires bid { IsBid (list_at self.old k).goods bid }
        requires room { length (list_at self.old k).bids < 400 }
        ensures ok { OnOk result (self.new ≡ with_bid_at self.old k bid) }
        ensures err { OnErr result (self.new ≡ self.old) }
    {
        self.named[k].push(bid)
    }

    // Takes out the bidder at a place, from 0, which takes no memory. Those behind it stand one place nearer the front.
    pub(crate) fn remove(&mut self, k: usize)
        requires { k < length self.old }
        ensures { self.new ≡ remove self.old k }
    {
        let _ = self.named.shift_remove_index(k);
    }

    // The list of one bid over so many goods, where the bidders have their memory.
    pub(crate) fn list_of(&self, goods: usize, bid: Bid) -> Result<BidList, Memory>
        requires goods { (1 ≤ goods) × (goods ≤ 8) }
        requires bid { IsBid goods bid }
        ensures { IfOk result (λ list. list ≡ one_bid goods bid) }
    {
        let mut list = BidList::new(*self.named.allocator(), goods);
        list.push(bid)?;
        Ok(list)
    }
}

#[cfg(test)]
mod tests {
    use super::*;
    use crate::formats::limits_of;
    use crate::spelling::read_name;
    use mix_bids::Values;
    use std::test::Fail;

    #[test]
    fn bidders_by_name(rt: HostRuntime) -> Result<(), Fail> {
        let alloc = rt.alloc();
        let first = read_name(b"P").ok().ok_or("a name")?;
        let second = read_name(b"p").ok().ok_or("a name")?;
        let mut bidders = Bidders::new(alloc);
        bidders
            .add(first, BidList::new(alloc, 1))
            .ok()
            .ok_or("memory")?;
        assert_eq!(rt; bidders.find(&second), None);
        bidders
            .add(second, BidList::new(alloc, 1))
            .ok()
            .ok_or("memory")?;
        assert_eq!(rt; bidders.find(&first), Some(0));
        assert_eq!(rt; bidders.find(&second), Some(1));
        assert_eq!(rt; bidders.count(), 2);
        let mut values = Values::new();
        values.push(Some(5));
        let limit = bidders
            .push_within(1, &limits_of(1), Bid { weight: 2, values })
            .ok()
            .ok_or("memory")?;
        assert!(rt; limit.is_none());
        let (name, list) = bidders.bidder(1);
        assert_eq!(rt; *name, second);
        assert_eq!(rt; list.bids().len(), 1);
        let (_, list) = bidders.bidder(0);
        assert_eq!(rt; list.bids().len(), 0);
        Ok(())
    }
}
