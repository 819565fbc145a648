// The replies to a text that is refused, and to an auction with a bidder who is.
ghost use Rattle.std.specs.Prelude.{◌≡◌, ◌≢◌, ◌<◌, IfOk};
ghost use Rattle.mix_text.specs.AuctionTexts.{auction_text};
ghost use Rattle.mix_text.specs.Pages.{line_of};
ghost use Rattle.mix_answer.specs.Shapes.{FitsAuction};
ghost use Rattle.mix_answer.specs.Refusals.{IsTrueRefusal};
ghost use Rattle.mix_run.specs.Replies.{output_of};
ghost use Rattle.mix_run.specs.Outputs.{fault_row, limit_row, refusal};
ghost use Rattle.mix_run.specs.Refusals.{TellsRefusal};

use crate::reply::Reply;
use crate::rows::{add_fault, add_limit};
use mix_answer::{Outcome, Refusal, print_outcome};
use mix_num::Memory;
use mix_text::{Auction, Fault, Limit, Page, TextError};
use std::alloc::Global;

const INVALID: u8 = 1;

const FAULT: u8 = 3;

const LIMIT: u8 = 4;

// The row of a fault by itself.
fn fault_text(alloc: Global, fault: Fault) -> Result<Vec<u8>, Memory>
    ensures { IfOk result (λ bytes. bytes.items ≡ line_of (fault_row fault)) }
{
    let mut page = Page::new(alloc);
    add_fault(&mut page, fault)?;
    page.finish()
}

// The row of a limit by itself.
fn limit_text(alloc: Global, limit: Limit) -> Result<Vec<u8>, Memory>
    ensures { IfOk result (λ bytes. bytes.items ≡ line_of (limit_row limit)) }
{
    let mut page = Page::new(alloc);
    add_limit(&mut page, limit)?;
    page.finish()
}

/// The reply to a text with this wrong first: status 3 and the fault, or status 4 and the limit.
pub fn refused(alloc: Global, error: TextError) -> Result<Reply, Memory>
    ensures output { IfOk result (λ reply. output_of reply ≡ refusal error) }
    ensures status { IfOk result (λ reply. (reply.status < 5) × (reply.status ≢ 2)) }
    ensures memory { IfOk result (λ reply. error ≢ TextError.Memory) }
{
    match error {
        TextError::Fault(fault) => {
            let bytes = fault_text(alloc, fault)?;
            Ok(Reply {
                status: FAULT,
                bytes,
            })
        }
        TextError::Limit(limit) => {
            let bytes = limit_text(alloc, limit)?;
            Ok(Reply {
                status: LIMIT,
                bytes,
            })
        }
        TextError::Memory => Err(Memory),
    }
}

/// The reply to an auction with this refusal of a bidder, who isn't convex: status 1 and the outcome's text.
pub fn refused_bidder(alloc: Global, auction: &Auction, refusal: Refusal) -> Result<Reply, Memory>
    requires truth { IsTrueRefusal (auction_text auction.now) refusal }
    requires shape { FitsAuction (auction_text auction.now) refusal }
    ensures output { IfOk result (λ reply. TellsRefusal (auction_text auction.now) (output_of reply)) }
    ensures status { IfOk result (λ reply. reply.status ≡ 1) }
{
    let bytes = print_outcome(alloc, auction, &Outcome::Refused(refusal))?;
    Ok(Reply {
        status: INVALID,
        bytes,
    })
}
