// The checker.
ghost use Rattle.std.specs.Prelude.{◌≡◌, ◌↔◌, ◌∷◌, [], IfErr, IfOk};
ghost use Rattle.mix_text.specs.AuctionTexts.{auction_text};
ghost use Rattle.mix_answer.specs.Refusals.{AreConvex};
ghost use Rattle.mix_answer.specs.Shapes.{FitsAuction, HasAnswerShape, HasShape};
ghost use Rattle.mix_answer.specs.Truths.{IsTrueAnswer, IsTrueOutcome};
ghost use Rattle.mix_answer.specs.declared.outcome.Outcome.TheVariants.{Cleared, Refused};
ghost use Rattle.mix_check.specs.Orders.{IsFirstReason, NoneBefore};
ghost use Rattle.mix_check.specs.Tests.{AreTablesAt};
ghost use Rattle.mix_check.specs.Verdicts.{GivesFirstReason, IsFairOutcome, IsLeastOfFractions, IsVerdict, IsWorthMost};

use crate::amounts::{above_reserves, add_up, returned_at_reserves};
use crate::bundles::{demanded, paid};
use crate::falls::none_lower;
use crate::members::first_invalid;
use crate::pairs::tight;
use crate::reason::{Reason, Verdict};
use crate::tables::{AllTables, Taken, all_tables, bidder_tables};
use mix_answer::{Answer, Outcome, Refusal};
use mix_num::Memory;
use mix_text::Auction;
use std::alloc::Global;

/// Whether an outcome of the auction's shape is true: Yes exactly where it is, whichever tight pairs or facet it has; else the first reason why
/// it isn't. Where it says yes of a cleared outcome, no allocation of the supply is worth more, and no prices with fractions clear below;
/// nor are any that clear better for a bidder, and none would rather have another bundle at its cost.
///
/// `Memory` comes where memory is wanting.
pub fn check(alloc: Global, auction: &Auction, outcome: &Outcome) -> Result<Verdict, Memory>
    requires { HasShape (auction_text auction.now) outcome.now }
    ensures exact { IfOk result (λ verdict. (verdict ≡ Verdict.Yes) ↔ IsTrueOutcome (auction_text auction.now) outcome.now) }
    ensures reason { IfOk result (GivesFirstReason (auction_text auction.now) outcome.now) }
    ensures worth { IfOk result (λ verdict. verdict ≡ Verdict.Yes → IsWorthMost (auction_text auction.now) outcome.now) }
    ensures fractions { IfOk result (λ verdict. verdict ≡ Verdict.Yes → IsLeastOfFractions (auction_text auction.now) outcome.now) }
    ensures fair { IfOk result (λ verdict. verdict ≡ Verdict.Yes → IsFairOutcome (auction_text auction.now) outcome.now) }
{
    match outcome {
        Outcome::Refused(refusal) => check_refusal(alloc, auction, refusal),
        Outcome::Cleared(answer) => check_answer(alloc, auction, answer),
    }
}

/// Whether a refusal is true.
fn check_refusal(alloc: Global, auction: &Auction, refusal: &Refusal) -> Result<Verdict, Memory>
    requires { FitsAuction (auction_text auction.now) refusal.now }
    ensures { IfOk result (IsVerdict (auction_text auction.now) (Refused refusal.now)) }
{
    let (_, list) = auction.bidder(refusal.bidder);
    let weight = list.facet_weight(refusal.first, refusal.second, &refusal.prices);
    if weight != refusal.weight {
        return Ok(Verdict::No(Reason::Facet { weight }));
    }
    match first_invalid(alloc, auction, refusal.bidder)? {
        Some(bidder) => Ok(Verdict::No(Reason::Earlier { bidder })),
        None => Ok(Verdict::Yes),
    }
}

/// Whether an answer is true.
fn check_answer(alloc: Global, auction: &Auction, answer: &Answer) -> Result<Verdict, Memory>
    requires { HasAnswerShape (auction_text auction.now) answer.now }
    ensures { IfOk result (IsVerdict (auction_text auction.now) (Cleared answer.now)) }
{
    let bidders = match bidder_tables(alloc, auction, &answer.prices)? {
        Taken::Tables(tables) => tables,
        Taken::Invalid(bidder) => return Ok(Verdict::No(Reason::Invalid { bidder })),
    };
    let tables = all_tables(alloc, auction, &answer.prices, bidders)?;
    match passes(auction, answer, &tables) {
        Ok(()) => Ok(Verdict::Yes),
        Err(reason) => Ok(Verdict::No(reason)),
    }
}

/// The tests of an answer of bidders that are convex, in their order.
fn passes(auction: &Auction, answer: &Answer, tables: &AllTables) -> Result<(), Reason>
    requires shape { HasAnswerShape (auction_text auction.now) answer.now }
    requires convex { AreConvex (auction_text auction.now) }
    requires tables { AreTablesAt (auction_text auction.now) answer.now.prices.items tables.now }
    requires before { NoneBefore (auction_text auction.now) (Cleared answer.now) (3 ∷ []) }
    ensures passed { IfOk result (λ done. IsTrueAnswer (auction_text auction.now) answer.now) }
    ensures reason { IfErr result (IsFirstReason (auction_text auction.now) (Cleared answer.now)) }
{
    above_reserves(auction, answer)?;
    add_up(auction, answer)?;
    returned_at_reserves(auction, answer)?;
    demanded(auction, answer, tables)?;
    none_lower(auction, answer, tables)?;
    paid(auction, answer)?;
    tight(auction, answer, tables)
}
