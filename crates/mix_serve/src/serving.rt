// From the least prices of an auction's market to the answer.
ghost use Rattle.std.specs.Prelude.{◌≡◌, length, map, IfOk};
ghost use Rattle.mix_num.specs.Ranges.{AreWithin};
ghost use Rattle.mix_num.specs.Vectors.{with_null};
ghost use Rattle.mix_cap.specs.MemberLaws.{function_of};
ghost use Rattle.mix_text.specs.AuctionTexts.{auction_text};
ghost use Rattle.mix_text.specs.Orders.{IsTieOrder};
ghost use Rattle.mix_seller.specs.Sellers.{reserve_of, supply_of};
ghost use Rattle.mix_market.specs.Lyapunov.{IsLeastPoint};
ghost use Rattle.mix_market.specs.Markets.{goods_of, lyapunov_of, members_of, seller_of};
ghost use Rattle.mix_clearing.specs.Fairness.{IsFair};
ghost use Rattle.mix_clearing.specs.Scales.{AreLeastOfFractions};
ghost use Rattle.mix_clearing.specs.Values.{AreWorthMost};
ghost use Rattle.mix_answer.specs.Shapes.{HasAnswerShape};
ghost use Rattle.mix_answer.specs.Truths.{HaveFirstTights, IsTrueAnswer, bundles_of};
ghost use Rattle.mix_answer.specs.Utilities.{scaled_utilities_of, utilities_of};
ghost use Rattle.mix_serve.specs.Admissions.{IsMarketOf};
ghost use Rattle.mix_serve.specs.Answers.{IsAnswerFor};

use crate::charging::charge;
use crate::sharing::share_out;
use mix_answer::{Answer, Tights};
use mix_cap::Member;
use mix_market::Market;
use mix_num::{Memory, Prices, Tight, copy};
use mix_text::{Auction, Order};
use std::alloc::Global;

/// The answer to an auction at its least prices: the bundles that clear there by the tie rule in the auction's tie order, what each
/// bidder pays, what is left with the seller, and the first tight pair of each bidder and each good.
///
/// The market is that of the auction, and the prices are the least point of its Lyapunov function at or above the reserves, from
/// -1,000,000 to 1,000,000. No other allocation is worth more than that of the answer, and no prices with fractions clear below its
/// prices; nor are any that clear better for a bidder, and none would rather have another bundle at its cost. `Memory` comes where
/// memory is wanting.
pub fn serve(
    alloc: Global,
    auction: &Auction,
    market: &Market<Member>,
    prices: &Prices,
) -> Result<Answer, Memory>
    requires market { IsMarketOf (auction_text auction.now) market.now }
    requires least { IsLeastPoint (goods_of market.now) (lyapunov_of market.now) (with_null (reserve_of (seller_of market.now))) (with_null prices.now.items) }
    requires range { AreWithin 1000000 (goods_of market.now) prices.now.items }
    ensures prices { IfOk result (λ answer. answer.prices.items ≡ prices.now.items) }
    ensures true_answer { IfOk result (IsTrueAnswer (auction_text auction.now)) }
    ensures shape { IfOk result (HasAnswerShape (auction_text auction.now)) }
    ensures first_tights { IfOk result (HaveFirstTights (auction_text auction.now)) }
    ensures worth { IfOk result (λ answer. AreWorthMost (utilities_of (auction_text auction.now)) auction.now.supply.items auction.now.reserve.items (bundles_of answer) answer.returns.items) }
    ensures fractions { IfOk result (λ answer. AreLeastOfFractions (scaled_utilities_of (auction_text auction.now)) auction.now.supply.items auction.now.reserve.items answer.prices.items) }
    ensures fair { IfOk result (λ answer. IsFair (scaled_utilities_of (auction_text auction.now)) auction.now.supply.items auction.now.reserve.items answer.prices.items (bundles_of answer) (map (λ share. share.payment) answer.shares) answer.returns.items) }
{
    let answer = answer_at(alloc, market, &auction.order, prices)?;
    Ok(answer)
}

/// The answer of a market at its least prices, whose members are served in the tie order.
fn answer_at(
    alloc: Global,
    market: &Market<Member>,
    order: &Order,
    prices: &Prices,
) -> Result<Answer, Memory>
    requires order { IsTieOrder (length (members_of market.now)) order.now }
    requires least { IsLeastPoint (goods_of market.now) (lyapunov_of market.now) (with_null (reserve_of (seller_of market.now))) (with_null prices.now.items) }
    requires range { AreWithin 1000000 (goods_of market.now) prices.now.items }
    ensures prices { IfOk result (λ answer. answer.prices.items ≡ prices.now.items) }
    ensures answer { IfOk result (IsAnswerFor (map function_of (members_of market.now)) (supply_of (seller_of market.now)) (reserve_of (seller_of market.now)) order.now) }
{
    let sharing = share_out(alloc, market, order, prices)?;
    let shares = charge(alloc, prices, sharing.bundles)?;
    let tights = listed(alloc, &sharing.tights)?;
    Ok(Answer {
        prices: copy(prices),
        shares,
        returns: sharing.returns,
        tights,
    })
}

/// The pairs as the list that an answer has.
fn listed(alloc: Global, pairs: &[Tight]) -> Result<Tights, Memory>
    ensures { IfOk result (λ tights. tights ≡ pairs.now) }
{
    let mut tights = Tights::new(alloc);
    for pair in pairs {
        tights.push(*pair)?;
    }
    Ok(tights)
}
