// The whole way from an auction to its outcome.
ghost use Rattle.std.specs.Prelude.{◌↔◌, map, IfOk};
ghost use Rattle.mix_text.specs.AuctionTexts.{auction_text};
ghost use Rattle.mix_clearing.specs.Fairness.{IsFair};
ghost use Rattle.mix_clearing.specs.Scales.{AreLeastOfFractions};
ghost use Rattle.mix_clearing.specs.Values.{AreWorthMost};
ghost use Rattle.mix_answer.specs.Refusals.{AreConvex};
ghost use Rattle.mix_answer.specs.Shapes.{HasShape};
ghost use Rattle.mix_answer.specs.Truths.{HaveFirstTights, IsTrueOutcome, bundles_of};
ghost use Rattle.mix_answer.specs.Utilities.{scaled_utilities_of, utilities_of};
ghost use Rattle.mix_serve.specs.Solved.{IsCleared, IsRefusal, OfAnswer};

use crate::least::least_prices;
use mix_answer::Outcome;
use mix_num::Memory;
use mix_serve::{Admitted, admit, serve};
use mix_text::Auction;
use std::alloc::Global;

/// The outcome of an auction. Where each bidder is convex, it is the answer: the least clearing prices at or above the
/// reserves, the bundles that clear there by the tie rule in the auction's tie order, what each bidder pays, what is
/// left with the seller, and the first tight pair of each bidder and each good. Else it is a refusal of the first bidder that
/// isn't convex, with a facet of its list that has negative weight.
///
/// No other allocation is worth more than that of an answer, and no prices with fractions clear below its prices;
/// nor are any that clear better for a bidder, and none would rather have another bundle at its cost. `Memory` comes where memory
/// is wanting.
pub fn solve(alloc: Global, auction: &Auction) -> Result<Outcome, Memory>
    ensures true_outcome { IfOk result (IsTrueOutcome (auction_text auction.now)) }
    ensures shape { IfOk result (HasShape (auction_text auction.now)) }
    ensures refused { IfOk result (λ outcome. IsRefusal outcome ↔ ¬ AreConvex (auction_text auction.now)) }
    ensures cleared { IfOk result (λ outcome. IsCleared outcome ↔ AreConvex (auction_text auction.now)) }
    ensures first_tights { IfOk result (OfAnswer (HaveFirstTights (auction_text auction.now))) }
    ensures worth { IfOk result (OfAnswer (λ answer. AreWorthMost (utilities_of (auction_text auction.now)) auction.now.supply.items auction.now.reserve.items (bundles_of answer) answer.returns.items)) }
    ensures fractions { IfOk result (OfAnswer (λ answer. AreLeastOfFractions (scaled_utilities_of (auction_text auction.now)) auction.now.supply.items auction.now.reserve.items answer.prices.items)) }
    ensures fair { IfOk result (OfAnswer (λ answer. IsFair (scaled_utilities_of (auction_text auction.now)) auction.now.supply.items auction.now.reserve.items answer.prices.items (bundles_of answer) (map (λ share. share.payment) answer.shares) answer.returns.items)) }
{
    match admit(alloc, auction)? {
        Admitted::Refused(refusal) => Ok(Outcome::Refused(refusal)),
        Admitted::Market(market) => {
            let prices = least_prices(&market);
            Ok(Outcome::Cleared(serve(alloc, auction, &market, &prices)?))
        }
    }
}
