// Which changes make an auction scarcer, each theorem the contract of a call that does nothing.
ghost use Rattle.std.specs.Prelude.{◌≡◌, ℕ, ℤ, pos, ◌≤ℤ◌, ◌<◌, List, Some, None, length};
ghost use Rattle.mix_bids.specs.Bids.{IsBid};
ghost use Rattle.mix_bids.specs.declared.bid.Bid.{Bid};
ghost use Rattle.mix_clearing.specs.Ceilings.{AreAtMost};
ghost use Rattle.mix_text.specs.Auctions.{AuctionText, IsAuction};
ghost use Rattle.mix_text.specs.Bidders.{place_of};
ghost use Rattle.mix_text.specs.Caps.{cap_at, with_cap};
ghost use Rattle.mix_text.specs.Changes.{cap_of_name, with_added, without};
ghost use Rattle.mix_text.specs.Reading.{NamedBid};
ghost use Rattle.mix_answer.specs.Refusals.{AreConvex};
ghost use Rattle.mix_scarcity.specs.Changes.{AreAdded, IsScarcerAuction, with_all};

/// An auction that is scarcer than a scarcer one is scarcer.
pub fn chains()
    ensures { (a b c : AuctionText) → IsScarcerAuction a b → IsScarcerAuction b c → IsScarcerAuction a c }
{}

/// With one bid more, of positive weight, of a bidder who has no cap or is new, an auction is scarcer.
pub fn bid_added()
    ensures { (a : AuctionText) (name : List ℕ) (bid : Bid) → IsAuction a → IsBid (length a.goods) bid → pos 0 ≤ℤ bid.weight → cap_of_name a name ≡ None →
        IsScarcerAuction a (with_added a name bid) }
{}

/// With any number of such bids more, one after the other, an auction is scarcer.
pub fn bids_added()
    ensures { (a : AuctionText) (bids : List NamedBid) → IsAuction a → AreAdded a bids → IsScarcerAuction a (with_all a bids) }
{}

/// An auction is scarcer than it is with a bid of negative weight more of one of its bidders.
pub fn negative_bid_added()
    ensures { (a : AuctionText) (name : List ℕ) (bid : Bid) (k : ℕ) → IsAuction a → IsBid (length a.goods) bid → bid.weight ≤ℤ pos 0 →
        place_of name a.bidders ≡ Some k → cap_of_name a name ≡ None →
        IsScarcerAuction (with_added a name bid) a }
{}

/// With a cap that is higher an auction is scarcer.
pub fn cap_raised()
    ensures { (a : AuctionText) (k : ℕ) (old new : ℤ) → IsAuction a → k < length a.bidders → cap_at a.caps k ≡ Some old → old ≤ℤ new →
        IsScarcerAuction a (record a { caps = with_cap a.caps k new }) }
{}

/// An auction is scarcer than it is without one of its bidders, where all are convex.
pub fn bidder_dropped()
    ensures { (a : AuctionText) (name : List ℕ) → IsAuction a → AreConvex a → IsScarcerAuction (without a name) a }
{}

/// Where no more of any good is offered an auction is scarcer.
pub fn less_supply()
    ensures { (a : AuctionText) (less : List ℤ) → length less ≡ length a.supply → AreAtMost (length a.supply) less a.supply →
        IsScarcerAuction a (record a { supply = less }) }
{}

/// Where no reserve is lower an auction is scarcer.
pub fn higher_reserves()
    ensures { (a : AuctionText) (higher : List ℤ) → AreAtMost (length a.supply) a.reserve higher → IsScarcerAuction a (record a { reserve = higher }) }
{}
