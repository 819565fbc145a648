// What the commands read that want an auction by itself.
ghost use Rattle.std.specs.Prelude.{◌≡◌, ◌≤◌, length, Ok, IfOk, IfErr};
ghost use Rattle.mix_text.specs.AuctionTexts.{auction_text};
ghost use Rattle.mix_text.specs.Reading.{IsFromText};
ghost use Rattle.mix_run.specs.Readings.{auction_alone};

use mix_text::{Auction, TextError, no_rest, read_auction};
use std::alloc::Global;

/// Reads an auction that nothing follows. The error is what is wrong first with the text; `Memory` may come in place of any
/// answer.
#[tactic(auto, unfolding(crate::specs::Readings::auction_alone))]
pub fn read_alone(alloc: Global, text: &[u8]) -> Result<Auction, TextError>
    requires { length text.now ≤ 16777216 }
    ensures read { IfOk result (λ auction. auction_alone text.now ≡ Ok (auction_text auction)) }
    ensures wrong { IfErr result (λ e. IsFromText (auction_alone text.now) e) }
{
    let (auction, rest) = read_auction(alloc, text)?;
    match no_rest(&rest) {
        Ok(()) => Ok(auction),
        Err(fault) => Err(TextError::Fault(fault)),
    }
}
