// The limits that the bids of one bidder pass.
ghost use Rattle.std.specs.Prelude.{◌≡◌, None, suc, count_by, IfOk};
ghost use Rattle.mix_bids.specs.Bids.{IsBid};
ghost use Rattle.mix_bids.specs.Cells.{cells};
ghost use Rattle.mix_text.specs.Bidders.{with_bid};
ghost use Rattle.mix_text.specs.Formats.{AreLimits, is_past};
ghost use Rattle.mix_text.specs.Reading.{is_negative, list_limit_of};

use crate::faults::What;
use crate::formats::Limits;
use mix_bids::{Bid, BidList};
use mix_num::Memory;

/// How many of these bids are negative.
pub(crate) fn negatives(bids: &[Bid]) -> usize
    ensures { result ≡ count_by is_negative bids.now }
{
    bids.iter().filter(|bid| bid.weight < 0).count()
}

// Whether one more negative bid after these would be one too many.
fn is_full_of_negatives(limits: &Limits, bids: &[Bid]) -> bool
    ensures { result ≡ is_past limits.now.negatives (suc (count_by is_negative bids.now)) }
{
    match limits.negatives {
        Some(most) => negatives(bids) >= most,
        None => false,
    }
}

// Whether a list has too many cells.
#[tactic(auto, using(crate::proofs::FormatLimits::past_cells))]
fn has_many_cells(limits: &Limits, list: &BidList) -> bool
    requires { AreLimits limits.now }
    ensures { result ≡ is_past limits.now.cells (cells list.now) }
{
    match limits.cells {
        Some(most) => list.cells() > most,
        None => false,
    }
}

/// Adds a bid at the end of a list, unless it would be one too many, and gives the first limit that it passes.
///
/// Where it passes a limit, or memory is wanting, the list is of no further use.
#[tactic(auto, unfolding(crate::specs::Reading::list_limit_of))]
pub fn push_within(limits: &Limits, list: &mut BidList, bid: Bid) -> Result<Option<What>, Memory>
    requires limits { AreLimits limits.now }
    requires bid { IsBid list.old.goods bid }
    ensures limit { IfOk result (λ limit. limit ≡ list_limit_of limits.now list.old bid) }
    ensures added { IfOk result (λ limit. limit ≡ None → list.new ≡ with_bid list.old bid) }
{
    if list.bids().len() >= limits.bids {
        return Ok(Some(What::Bids));
    }
    if bid.weight < 0 && is_full_of_negatives(limits, list.bids()) {
        return Ok(Some(What::Negatives));
    }
    list.push(bid)?;
    if has_many_cells(limits, list) {
        return Ok(Some(What::Cells));
    }
    Ok(None)
}
