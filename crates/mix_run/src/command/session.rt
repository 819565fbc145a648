// The command `session`: the outcomes of an auction while bids come and go.
ghost use Rattle.std.specs.Prelude.{◌≤◌, length, IfOk, IfErr};
ghost use Rattle.mix_text.specs.Reading.{IsFromText};
ghost use Rattle.mix_run.specs.command.Session.{IsSessionOf, session_text};

use mix_session::play;
use mix_text::{TextError, read_auction};
use std::alloc::Global;

/// Reads an auction and the rows that change it, and prints its outcome wherever one is asked for: what `solve` prints of the
/// auction as it then stands. A list that hasn't changed isn't looked at again, and prices are found from the last ones.
///
/// The error is what is wrong first with the text, which has at most 16,777,216 bytes; `Memory` may come in place of any
/// answer.
#[tactic(auto, unfolding(crate::specs::command::Session::session_text))]
pub fn print_session(alloc: Global, text: &[u8]) -> Result<Vec<u8>, TextError>
    requires { length text.now ≤ 16777216 }
    ensures done { IfOk result (λ bytes. IsSessionOf text.now (record { status = 0; bytes = bytes.items })) }
    ensures wrong { IfErr result (λ e. IsFromText (session_text text.now) e) }
{
    let (auction, rest) = read_auction(alloc, text)?;
    play(alloc, auction, &rest)
}
