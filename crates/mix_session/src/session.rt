// An auction that is run again and again.
ghost use Rattle.std.specs.Prelude.{◌≡◌, ◌↔◌, None, Err, false, true, is_ok, is_some, length, replicate, IfErr, IfOk, OnErr, OnOk};
ghost use Rattle.mix_bids.specs.Bids.{IsBid};
ghost use Rattle.mix_text.specs.AuctionTexts.{auction_text};
ghost use Rattle.mix_text.specs.Bidders.{place_of};
ghost use Rattle.mix_text.specs.Changes.{limit_of_added, with_added, without};
ghost use Rattle.mix_text.specs.Spelling.{is_name};
ghost use Rattle.mix_answer.specs.Shapes.{HasShape};
ghost use Rattle.mix_answer.specs.Truths.{HaveFirstTights, IsTrueOutcome};
ghost use Rattle.mix_serve.specs.Solved.{OfAnswer};
ghost use Rattle.mix_session.specs.Additions.{IsWhyNot, is_capped_negative};
ghost use Rattle.mix_session.specs.Sessions.{IsFoundInSteps, TakesNone, last_after};

use crate::changes::{add_to, drop_from, test_added};
use crate::clearing::answer_from;
use crate::faults::{AddError, NoBidder};
use crate::standing::{Standing, first_refusal};
use mix_answer::Outcome;
use mix_bids::Bid;
use mix_num::{Memory, Prices, copy};
use mix_step::Steps;
use mix_text::{Auction, Name};
use std::alloc::Global;
use std::marker::Model;
use std::sync::ledger::Ledger;

/// An auction whose bids come and go, the last prices that were found for it, and what is known of its bidders.
///
/// The last prices are the reserves at first, then those of the last answer. A list that hasn't changed is never validated again.
#[derive(Drop)]
pub struct Session {
    auction: Auction,
    last: Prices,
    standings: Vec<Standing>,
}

impl Model for Session {
    ghost use Rattle.mix_session.specs.Sessions.{SessionText};

    ghost Value = { SessionText };

    ghost use Rattle.mix_text.specs.AuctionTexts.{auction_text};
    ghost use Rattle.mix_session.specs.Standings.{IsSession};

    ghost view = { λ s. record { auction = auction_text s.auction; last = s.last.items } };

    ghost invariant = { λ s. IsSession (auction_text s.auction) s.last.items s.standings.items };
}

// So many bidders of whom nothing is known.
fn nothing_known(alloc: Global, count: usize) -> Result<Vec<Standing>, Memory>
    ensures { IfOk result (λ standings. standings.items ≡ replicate count Standing.Open) }
{
    let mut standings = Vec::new(alloc);
    for _ in 0..count {
        standings.push(Standing::Open)?;
    }
    Ok(standings)
}

impl Session {
    /// The session of an auction of whose bidders nothing is known yet. Its last prices are the reserves.
    ///
    /// The one error is want of memory.
    pub fn begin(alloc: Global, auction: Auction) -> Result<Session, Memory>
        ensures { IfOk result (λ session. session ≡ record { auction = auction_text auction; last = auction.reserve.items }) }
    {
        let standings = nothing_known(alloc, auction.count())?;
        let last = copy(&auction.reserve);
        Ok(Session {
            auction,
            last,
            standings,
        })
    }

    /// The auction as it stands.
    pub fn auction(&self) -> &Auction
        ensures { auction_text result.now ≡ self.now.auction }
    {
        &self.auction
    }

    /// The last prices: for each good a price from 0 to 1,000,000, none below its reserve.
    pub fn last(&self) -> &Prices
        ensures { result.now.items ≡ self.now.last }
    {
        &self.last
    }

    /// Adds a bid over the auction's goods at the end of the list of the bidder of this name. Where none has the name, it becomes that
    /// of a last bidder, who has no cap and is served last. The last prices stay.
    ///
    /// `Weight` comes exactly where the bidder has a cap and the bid's weight is negative, and before memory is taken; else `Limit`
    /// comes where the bid passes a limit of the auction's format, with the first that it passes, and `Memory` where memory is wanting.
    /// Then the session is as it was.
    pub fn add(&mut self, name: &Name, bid: Bid) -> Result<(), AddError>
        requires name { is_name name.now.bytes ≡ true }
        requires bid { IsBid (length self.old.auction.goods) bid }
        ensures ok { OnOk result (self.new ≡ record self.old { auction = with_added self.old.auction name.now.bytes bid }) }
        ensures err { OnErr result (self.new ≡ self.old) }
        ensures weight { (result ≡ Err AddError.Weight) ↔ (is_capped_negative self.old.auction name.now.bytes bid ≡ true) }
        ensures why { IfErr result (IsWhyNot self.old.auction name.now.bytes bid) }
        ensures light { OnOk result (is_capped_negative self.old.auction name.now.bytes bid ≡ false) }
        ensures limit { OnOk result (limit_of_added self.old.auction name.now.bytes bid ≡ None) }
    {
        let alloc = *self.standings.allocator();
        test_added(alloc, &self.auction, name, &bid)?;
        add_to(&mut self.auction, &mut self.standings, name, bid)?;
        Ok(())
    }

    /// Takes the bidder of this name out, with its bids and its cap. The last prices stay, and it takes no memory.
    ///
    /// `NoBidder` comes exactly where no bidder has the name, and then the session is as it was.
    pub fn drop_bidder(&mut self, name: &Name) -> Result<(), NoBidder>
        ensures found { is_ok result ≡ is_some (place_of name.now.bytes self.old.auction.bidders) }
        ensures ok { OnOk result (self.new ≡ record self.old { auction = without self.old.auction name.now.bytes }) }
        ensures err { OnErr result (self.new ≡ self.old) }
    {
        drop_from(&mut self.auction, &mut self.standings, name)
    }

    /// The outcome of the auction as it stands. Where each bidder is convex, it is the answer, whose prices are found from the last
    /// ones and become the last ones; else it is a refusal of the first bidder that isn't convex, and the last prices stay.
    ///
    /// `Memory` comes where memory is wanting, and then the session is as it was.
    pub fn clear<L: Ledger>(
        &mut self,
        alloc: Global,
        steps: &mut Steps<L>,
    ) -> Result<Outcome, Memory>
        ensures true_outcome { IfOk result (IsTrueOutcome self.old.auction) }
        ensures shape { IfOk result (HasShape self.old.auction) }
        ensures first_tights { IfOk result (OfAnswer (HaveFirstTights self.old.auction)) }
        ensures kept { IfOk result (λ outcome. self.new ≡ record self.old { last = last_after self.old.last outcome }) }
        ensures err { OnErr result (self.new ≡ self.old) }
        ensures unspent { IfOk result (TakesNone steps.old steps.new) }
        ensures cost { IfOk result (OfAnswer (IsFoundInSteps self.old.auction self.old.last steps.old steps.new)) }
    {
        if let Some(refusal) = first_refusal(alloc, &self.auction, &mut self.standings)? {
            return Ok(Outcome::Refused(refusal));
        }
        let answer = answer_from(alloc, &self.auction, &self.last, &mut self.standings, steps)?;
        self.last = copy(&answer.prices);
        Ok(Outcome::Cleared(answer))
    }
}
