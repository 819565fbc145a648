// An auction.
ghost use Rattle.std.specs.Prelude.{◌≡◌, ◌<◌, ◌≤◌, ◌≤ℤ◌, pos, length, IfSome};
ghost use Rattle.mix_bids.specs.Caps.{ArePositive};
ghost use Rattle.mix_text.specs.Auctions.{IsAuction};
ghost use Rattle.mix_text.specs.Bidders.{list_at, name_at};
ghost use Rattle.mix_text.specs.Caps.{cap_at};

use crate::bidders::Bidders;
use crate::caps::Caps;
use crate::names::Names;
use crate::order::Order;
use crate::spelling::Name;
use mix_bids::BidList;
use mix_num::{Bundle, Prices};

/// An auction: 1 to 8 goods by name, for each a supply and a reserve price from 0 to 1,000,000, and at most 256
/// bidders by name, each with 1 to 400 bids over these goods. Its format is 1, 2 or 3, and says which limits its text keeps.
/// A bidder may have a cap on its units in all goods together; in formats 1 and 2 none has.
/// The order is the tie order: where bids tie, who comes first in it is served first. In format 1 it is that of first appearance.
#[derive(Drop)]
pub struct Auction {
    pub format: u8,
    pub goods: Names,
    pub supply: Bundle,
    pub reserve: Prices,
    pub bidders: Bidders,
    pub caps: Caps,
    pub order: Order,
    ghost sound: { IsAuction (record { format = format; goods = goods; supply = supply.items; reserve = reserve.items; bidders = bidders; caps = caps; order = order }) },
}

impl Auction {
    /// The name and the bids of the bidder at a place, from 0.
    pub fn bidder(&self, k: usize) -> (&Name, &BidList)
        requires { k < length self.now.bidders }
        ensures name { result.0.now.bytes ≡ name_at self.now.bidders k }
        ensures list { result.1.now ≡ list_at self.now.bidders k }
    {
        self.bidders.bidder(k)
    }

    /// The cap of the bidder at a place, from 0, where it has one: from 0 to 1,000,000 units in all goods together. The bidder
    /// then has no bid of negative weight.
    pub fn cap(&self, k: usize) -> Option<i64>
        requires { k < length self.now.bidders }
        ensures value { result ≡ cap_at self.now.caps k }
        ensures range { IfSome result (λ cap. (pos 0 ≤ℤ cap) × (cap ≤ℤ pos 1000000)) }
        ensures positive { IfSome result (λ cap. ArePositive (list_at self.now.bidders k).bids) }
    {
        self.caps.get(k)
    }

    /// How many bidders there are, at most 256.
    pub fn count(&self) -> usize
        ensures value { result ≡ length self.now.bidders }
        ensures range { result ≤ 256 }
    {
        self.bidders.count()
    }
}
