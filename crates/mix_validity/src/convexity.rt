// Convexity over all rational prices, as facets tell it.
ghost use Rattle.std.specs.Prelude.{◌↔◌};
ghost use Rattle.mix_bids.specs.Bids.{NoneNegative};
ghost use Rattle.mix_bids.specs.Convexity.{IsConvexList};

use mix_bids::BidList;

/// A list is convex over all rational prices exactly where no facet weight of it is negative at any whole prices. The call
/// does nothing, and takes no memory.
pub fn convex_where_none_negative(list: &BidList)
    ensures { IsConvexList list.now.bids ↔ NoneNegative list.now.goods list.now.bids }
{
    let _bids = list.bids();
}
