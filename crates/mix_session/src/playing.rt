// A session that the rows after an auction tell.
ghost use Rattle.std.specs.Prelude.{◌≡◌, ◌+◌, ◌<◌, [], Ok, codes, true, IfErr, IfOk, OnOk};
ghost use Rattle.mix_text.specs.AuctionTexts.{auction_text};
ghost use Rattle.mix_text.specs.Reading.{IsFromText};
ghost use Rattle.mix_session.specs.OutcomeTexts.{AddsOutcomeText, ArePlayed};
ghost use Rattle.mix_session.specs.Plays.{Ends, HasCleared, Plays};
ghost use Rattle.mix_session.specs.Readings.{clear_in, goes_on as goes_on_of, session_of};

use crate::row_playing::{add_row, close_row, drop_row, fault, goes_on, test_clear};
use crate::session::Session;
use mix_answer::print_outcome;
use mix_num::Memory;
use mix_step::Steps;
use mix_text::{Auction, Code, Rest, Row, TextError, row_begins};
use std::alloc::Global;
use std::marker::Brand;
use std::sync::ledger::{Blank, Ledger};

/// What has been played so far.
#[derive(Drop)]
pub(crate) struct Playing {
    /// The session as it stands.
    pub session: Session,
    /// How many outcomes were asked for.
    pub clears: usize,
    /// Their texts.
    pub texts: Vec<u8>,
}

// Adds the text of the outcome of the auction as it stands.
fn add_text<L: Ledger>(
    alloc: Global,
    session: &mut Session,
    texts: &mut Vec<u8>,
    steps: &mut Steps<L>,
) -> Result<(), Memory>
    ensures auction { OnOk result (session.new.auction ≡ session.old.auction) }
    ensures text { OnOk result (AddsOutcomeText session.old.auction texts.old.items texts.new.items) }
{
    let outcome = session.clear(alloc, steps)?;
    let text = print_outcome(alloc, session.auction(), &outcome)?;
    texts.extend_from_slice(&text)?;
    Ok(())
}

// Plays a row that asks for an outcome.
fn play_clear<L: Ledger>(
    alloc: Global,
    playing: &mut Playing,
    row: &Row,
    steps: &mut Steps<L>,
) -> Result<(), TextError>
    ensures read { OnOk result (clear_in playing.old.clears row.now ≡ Ok tt) }
    ensures count { OnOk result (playing.new.clears ≡ playing.old.clears + 1) }
    ensures auction { OnOk result (playing.new.session.auction ≡ playing.old.session.auction) }
    ensures text { OnOk result (AddsOutcomeText playing.old.session.auction playing.old.texts.items playing.new.texts.items) }
    ensures wrong { IfErr result (IsFromText (clear_in playing.old.clears row.now)) }
{
    test_clear(row, playing.clears)?;
    add_text(alloc, &mut playing.session, &mut playing.texts, steps)?;
    playing.clears += 1;
    Ok(())
}

// Plays a row that adds, drops or asks for an outcome.
fn play_row<L: Ledger>(
    alloc: Global,
    playing: &mut Playing,
    row: &Row,
    steps: &mut Steps<L>,
) -> Result<(), TextError>
    requires { goes_on_of row.now.fields ≡ true }
    ensures plays { OnOk result (Plays playing.old playing.new row.now) }
    ensures wrong { IfErr result (Ends playing.old row.now) }
{
    if row_begins(row, b"add") {
        return add_row(&mut playing.session, row);
    }
    if row_begins(row, b"drop") {
        return match drop_row(&mut playing.session, row) {
            Ok(()) => Ok(()),
            Err(code) => Err(fault(row.number(), code)),
        };
    }
    play_clear(alloc, playing, row, steps)
}

// Plays the rows in order, up to the last one, after which none may come.
fn play_rows<L: Ledger>(
    alloc: Global,
    playing: &mut Playing,
    rest: &Rest,
    steps: &mut Steps<L>,
) -> Result<(), TextError>
    requires { HasCleared playing.old [] }
    ensures played { OnOk result (ArePlayed (session_of playing.old.session.auction rest.now) playing.new.texts.items) }
    ensures wrong { IfErr result (IsFromText (session_of playing.old.session.auction rest.now)) }
{
    let rows = rest.rows();
    for k in 0..rows.len() {
        let row = &rows[k];
        if !goes_on(row) {
            return close_row(row, &rows[k + 1..]);
        }
        play_row(alloc, playing, row, steps)?;
    }
    Err(fault(rest.next_number(), Code::End))
}

// The texts of the outcomes that the rows ask for, with a counter of steps on a ledger of its own.
fn texts_of<L: Ledger>(
    alloc: Global,
    session: Session,
    rest: &Rest,
    blank: Blank,
) -> Result<Vec<u8>, TextError>
    requires name { blank.name ≡ L.name }
    requires parts { blank.parts ≡ L.parts }
    requires some { 0 < blank.parts }
    ensures played { IfOk result (λ bytes. ArePlayed (session_of session.auction rest.now) bytes.items) }
    ensures wrong { IfErr result (IsFromText (session_of session.auction rest.now)) }
{
    let mut steps = Steps::<L>::new(blank);
    let mut playing = Playing {
        session,
        clears: 0,
        texts: Vec::new(alloc),
    };
    play_rows(alloc, &mut playing, rest, &mut steps)?;
    Ok(playing.texts)
}

/// Plays the rows after an auction: the texts of the outcomes that they ask for, one after the other, each of the auction as it stands
/// there, with the first tight pair of each bidder and each good.
///
/// The rows are any number of rows `add`, `drop` and `clear`, and last `close`. A row `add` has the fields of a row `bid`, and adds
/// its bid; `drop` has a bidder's name, and takes the bidder out; `clear` asks for the outcome, up to 64 times. Prices are found from the
/// last ones, and lists that haven't changed are not validated again.
///
/// The rows are looked at in order, and the first that has a fault or passes a limit decides, a fault before a limit within a row; then
/// no text comes. The code is that of the first of the row's tests that fails: `Place` where its first field is another word; `Fields`
/// where the number of fields is wrong; in a row `add` those of a bid, and then `Weight` where the bidder has a cap and the weight is
/// negative; in a row `drop` `Name` where the name has not the form of one, and `Other` where no bidder has it. A row `add` may pass a
/// limit of the auction's format, and the 65th row `clear` passes the limit `Clears`. Where the rows end before `close`, that is the fault
/// `End` of the row that would come next; a row after `close` has the fault `After`. `Memory` may come in place of any answer.
pub fn play(alloc: Global, auction: Auction, rest: &Rest) -> Result<Vec<u8>, TextError>
    ensures played { IfOk result (λ bytes. ArePlayed (session_of (auction_text auction) rest.now) bytes.items) }
    ensures wrong { IfErr result (IsFromText (session_of (auction_text auction) rest.now)) }
{
    let session = Session::begin(alloc, auction)?;
    texts_of::<Brand>(alloc, session, rest, Blank::new(1))
}
