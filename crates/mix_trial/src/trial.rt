// The trial auction of a number.
ghost use Rattle.std.specs.Prelude.{◌≡◌, All, IfOk};
ghost use Rattle.mix_bids.specs.Convexity.{IsConvexList};
ghost use Rattle.mix_text.specs.AuctionTexts.{auction_text};
ghost use Rattle.mix_text.specs.Limits.{MeetsLimits};
ghost use Rattle.mix_trial.specs.Trials.{trial_auction, trial_words};

use crate::bidders::draw_bidders;
use crate::draws::draw_amounts;
use crate::naming::good_names;
use mix_num::Memory;
use mix_text::{Auction, Caps, Order};
use rand_core::SeedableRng;
use rand_pcg::Lcg64Xsh32;
use std::alloc::Global;

/// The trial auction of a number: what is drawn from the words of the number's generator, one at a time.
///
/// Five goods, A to E, of each 100 to 199 units, with reserves from 0 to 99; forty bidders, B01 to B40, each with four
/// blocks of four bids and sixteen single bids. In a block one bid of four is negative. Every list is convex, and the
/// auction keeps to the limits of its format, which is 1. No bidder has a cap; the bidders are served in order of first appearance.
pub fn make(alloc: Global, seed: u64) -> Result<Auction, Memory>
    ensures text { IfOk result (λ auction. auction_text auction ≡ trial_auction (trial_words seed)) }
    ensures convex { IfOk result (λ auction. All (λ bidder. IsConvexList bidder.1.bids) auction.bidders) }
    ensures limits { IfOk result (λ auction. MeetsLimits (auction_text auction)) }
{
    let mut words = Lcg64Xsh32::seed_from_u64(seed);
    let goods = good_names(alloc)?;
    let supply = draw_amounts(&mut words, 100, 100);
    let reserve = draw_amounts(&mut words, 0, 100);
    let bidders = draw_bidders(alloc, &mut words)?;
    let caps = Caps::none(alloc, bidders.count())?;
    let order = Order::of_appearance(alloc, bidders.count())?;
    Ok(Auction {
        format: 1,
        goods,
        supply,
        reserve,
        bidders,
        caps,
        order,
    })
}
