// The bidders of a trial auction.
ghost use Rattle.std.specs.Prelude.{◌≡◌, IfOk, OnOk};
ghost use Rattle.mix_trial.specs.Words.{words_of};
ghost use Rattle.mix_trial.specs.Draws.{for_each};
ghost use Rattle.mix_trial.specs.Trials.{bidder};

use crate::bids::draw_bids;
use crate::naming::bidder_name;
use mix_num::Memory;
use mix_text::Bidders;
use rand_pcg::Lcg64Xsh32;
use std::alloc::Global;

// The bidders of a trial auction.
const BIDDERS: u8 = 40;

/// Forty bidders.
pub fn draw_bidders(alloc: Global, words: &mut Lcg64Xsh32) -> Result<Bidders, Memory>
    ensures value { IfOk result (λ bidders. bidders ≡ (for_each 40 1 bidder (words_of words.old)).0) }
    ensures rest { OnOk result (words_of words.new ≡ (for_each 40 1 bidder (words_of words.old)).1) }
{
    let mut bidders = Bidders::new(alloc);
    for place in 0..BIDDERS {
        let list = draw_bids(alloc, words)?;
        bidders.add(bidder_name(place + 1), list)?;
    }
    Ok(bidders)
}
