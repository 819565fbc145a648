// An auction that changes: a bid is added, or a bidder leaves.
ghost use Rattle.std.specs.Prelude.{◌≡◌, Some, None, is_some, length, IfOk, OnErr, OnOk};
ghost use Rattle.mix_bids.specs.Bids.{IsBid};
ghost use Rattle.mix_text.specs.Auctions.{IsAuction};
ghost use Rattle.mix_text.specs.AuctionTexts.{auction_text};
ghost use Rattle.mix_text.specs.Bidders.{place_of};
ghost use Rattle.mix_text.specs.Changes.{cap_of_name as cap_of, limit_of_added as limit_of, with_added, with_bid_under, without};

use crate::auction::Auction;
use crate::bid_limits::push_within;
use crate::faults::What;
use crate::formats::limits_of;
use crate::spelling::Name;
use mix_bids::{Bid, BidList};
use mix_num::Memory;
use std::alloc::Global;

impl Auction {
    /// Adds a bid over the auction's goods at the end of the list of the bidder of this name. Where none has the name, it
    /// becomes that of a last bidder, who has no cap and is served last.
    ///
    /// What comes of it must be an auction: it is where `limit_of_added` gives no limit, and the bid isn't negative or the
    /// bidder has no cap. The one error is want of memory, and then the auction stays as it was.
    pub fn add_bid(&mut self, name: &Name, bid: Bid) -> Result<(), Memory>
        requires bid { IsBid (length self.old.goods) bid }
        requires keeps { IsAuction (with_added (auction_text self.old) name.now.bytes bid) }
        ensures ok { OnOk result (auction_text self.new ≡ with_added (auction_text self.old) name.now.bytes bid) }
        ensures err { OnErr result (auction_text self.new ≡ auction_text self.old) }
    {
        match self.bidders.find(name) {
            Some(k) => self.bidders.push(k, bid),
            None => self.add_bidder(*name, bid),
        }
    }

    // Adds the first bid of a new bidder, who has no cap and is served last. Where memory is wanting, the auction stays as it was.
    fn add_bidder(&mut self, name: Name, bid: Bid) -> Result<(), Memory>
        requires absent { place_of name.bytes self.old.bidders ≡ None }
        requires bid { IsBid (length self.old.goods) bid }
        requires keeps { IsAuction (with_bid_under (auction_text self.old) name.bytes bid None) }
        ensures ok { OnOk result (auction_text self.new ≡ with_bid_under (auction_text self.old) name.bytes bid None) }
        ensures err { OnErr result (auction_text self.new ≡ auction_text self.old) }
    {
        let list = self.bidders.list_of(self.goods.len(), bid)?;
        self.caps.push(None)?;
        let Ok(()) = self.order.push(self.bidders.count()) else {
            self.caps.pop();
            return Err(Memory);
        };
        let Ok(()) = self.bidders.add(name, list) else {
            self.order.pop();
            self.caps.pop();
            return Err(Memory);
        };
        Ok(())
    }

    /// Takes the bidder of this name out, with its bids and its cap, and says whether there was one. The others stay in the
    /// order in which they are, and in that in which they are served. Where none has the name, nothing changes. It takes no memory.
    pub fn drop_bidder(&mut self, name: &Name) -> bool
        ensures dropped { auction_text self.new ≡ without (auction_text self.old) name.now.bytes }
        ensures found { result ≡ is_some (place_of name.now.bytes self.old.bidders) }
    {
        let Some(k) = self.bidders.find(name) else {
            return false;
        };
        self.bidders.remove(k);
        self.caps.remove(k);
        self.order.remove(k);
        true
    }

    /// The first limit of the auction's format that this bid would pass if it were added under this name, or None. The one error
    /// is want of memory: the bids are counted in a copy of the bidder's list.
    pub fn limit_of_added(
        &self,
        alloc: Global,
        name: &Name,
        bid: Bid,
    ) -> Result<Option<What>, Memory>
        requires { IsBid (length self.now.goods) bid }
        ensures { IfOk result (λ limit. limit ≡ limit_of (auction_text self.now) name.now.bytes bid) }
    {
        let limits = limits_of(self.format);
        match self.bidders.find(name) {
            Some(k) => {
                let (_, list) = self.bidders.bidder(k);
                let mut longer = list.copy(alloc)?;
                push_within(&limits, &mut longer, bid)
            }
            None => {
                if self.bidders.count() >= limits.bidders {
                    return Ok(Some(What::Bidders));
                }
                let mut list = BidList::new(alloc, self.goods.len());
                push_within(&limits, &mut list, bid)
            }
        }
    }

    /// The cap of the bidder of this name; None where it has none, or none has the name.
    pub fn cap_of_name(&self, name: &Name) -> Option<i64>
        ensures { result ≡ cap_of (auction_text self.now) name.now.bytes }
    {
        let k = self.bidders.find(name)?;
        self.cap(k)
    }
}
