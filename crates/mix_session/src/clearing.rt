// The answer of an auction whose bidders are all known to be convex, found from the last prices.
ghost use Rattle.std.specs.Prelude.{◌≡◌, ◌+◌, IfOk};
ghost use Rattle.mix_text.specs.AuctionTexts.{auction_text};
ghost use Rattle.mix_answer.specs.Shapes.{HasAnswerShape};
ghost use Rattle.mix_answer.specs.Truths.{HaveFirstTights, IsTrueAnswer};
ghost use Rattle.mix_serve.specs.Admissions.{IsMarketOf};
ghost use Rattle.mix_session.specs.Sessions.{AreReached, IsFoundInSteps};
ghost use Rattle.mix_session.specs.Standings.{AreStandings, AreTakenIn};

use crate::members::{move_back, move_out};
use crate::standing::Standing;
use mix_answer::Answer;
use mix_cap::Member;
use mix_fall::settle;
use mix_market::{Market, Seller};
use mix_num::{Memory, Prices};
use mix_serve::serve;
use mix_step::Steps;
use mix_text::Auction;
use std::alloc::Global;
use std::sync::ledger::Ledger;

// The answer of an auction whose market this is.
fn answer_of<L: Ledger>(
    alloc: Global,
    auction: &Auction,
    market: &Market<Member>,
    last: &Prices,
    steps: &mut Steps<L>,
) -> Result<Answer, Memory>
    requires market { IsMarketOf (auction_text auction.now) market.now }
    requires last { AreReached (auction_text auction.now) last.now.items }
    ensures true_answer { IfOk result (IsTrueAnswer (auction_text auction.now)) }
    ensures shape { IfOk result (HasAnswerShape (auction_text auction.now)) }
    ensures first_tights { IfOk result (HaveFirstTights (auction_text auction.now)) }
    ensures reached { IfOk result (λ answer. AreReached (auction_text auction.now) answer.prices.items) }
    ensures cost { IfOk result (IsFoundInSteps (auction_text auction.now) last.now.items steps.old steps.new) }
{
    let prices = settle(market, &auction.reserve, last, steps);
    let answer = serve(alloc, auction, market, &prices)?;
    Ok(answer)
}

/// The answer of an auction whose bidders are all known to be convex. Its prices are found from the last ones, which rise and then
/// fall.
///
/// What is known of the bidders stays, also where memory is wanting.
pub(crate) fn answer_from<L: Ledger>(
    alloc: Global,
    auction: &Auction,
    last: &Prices,
    standings: &mut [Standing],
    steps: &mut Steps<L>,
) -> Result<Answer, Memory>
    requires last { AreReached (auction_text auction.now) last.now.items }
    requires stand { AreStandings (auction_text auction.now) standings.old }
    requires convex { AreTakenIn standings.old }
    ensures stand { standings.new ≡ standings.old }
    ensures true_answer { IfOk result (IsTrueAnswer (auction_text auction.now)) }
    ensures shape { IfOk result (HasAnswerShape (auction_text auction.now)) }
    ensures first_tights { IfOk result (HaveFirstTights (auction_text auction.now)) }
    ensures reached { IfOk result (λ answer. AreReached (auction_text auction.now) answer.prices.items) }
    ensures cost { IfOk result (IsFoundInSteps (auction_text auction.now) last.now.items steps.old steps.new) }
{
    let members = move_out(alloc, standings)?;
    let market = Market::new(members, Seller::new(&auction.supply, &auction.reserve));
    let answer = answer_of(alloc, auction, &market, last, steps);
    move_back(standings, market.into_members());
    answer
}
