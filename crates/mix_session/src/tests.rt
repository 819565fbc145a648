// A session that bids come to and bidders leave, where memory is ample.
ghost use Rattle.std.specs.Prelude.{◌≡◌, ◌<◌};

use crate::row_playing::{add_row, drop_row};
use crate::session::Session;
use mix_answer::Outcome;
use mix_num::Memory;
use mix_step::Steps;
use mix_text::{Code, Fault, Row, TextError, read_auction, row_begins, rows};
use std::alloc::Global;
use std::marker::Brand;
use std::sync::ledger::{Blank, Ledger};
use std::test::Fail;

// One unit at no less than 1, for which P bids 5 and, capped to one unit, Q 3.
const ONE_UNIT: &[u8] =
    b"mix,3\ngoods,A\nsupply,1\nreserve,1\nbid,P,1,5\nbid,Q,1,3\ncap,Q,1\nend\n";

// The session of this auction.
fn begun(alloc: Global) -> Result<Session, Fail> {
    let (auction, _) = read_auction(alloc, ONE_UNIT)?;
    Session::begin(alloc, auction).map_err(|_| "memory".into())
}

// The outcome as it stands, with a counter of steps on a ledger of its own.
fn clear_on<L: Ledger>(
    alloc: Global,
    session: &mut Session,
    blank: Blank,
) -> Result<Outcome, Memory>
    requires name { blank.name ≡ L.name }
    requires parts { blank.parts ≡ L.parts }
    requires some { 0 < blank.parts }
{
    session.clear(alloc, &mut Steps::<L>::new(blank))
}

fn clear(alloc: Global, session: &mut Session) -> Result<Outcome, Memory> {
    clear_on::<Brand>(alloc, session, Blank::new(1))
}

// The price of the first good in the answer.
fn price(alloc: Global, session: &mut Session) -> Option<i64> {
    match clear(alloc, session) {
        Ok(Outcome::Cleared(answer)) => answer.prices.first().copied(),
        _ => None,
    }
}

// The place, the choices and the weight that a refusal tells.
fn told(outcome: &Outcome) -> Option<(usize, usize, usize, i64)> {
    match outcome {
        Outcome::Refused(r) => Some((r.bidder, r.first, r.second, r.weight)),
        Outcome::Cleared(_) => None,
    }
}

fn refused(alloc: Global, session: &mut Session) -> Option<(usize, usize, usize, i64)> {
    match clear(alloc, session) {
        Ok(outcome) => told(&outcome),
        Err(Memory) => None,
    }
}

// Plays a row that adds or drops.
fn play(session: &mut Session, row: &Row) -> Result<(), TextError> {
    if row_begins(row, b"add") {
        return add_row(session, row);
    }
    drop_row(session, row).map_err(|code| TextError::Fault(Fault { at: 1, code }))
}

// Plays the first of these rows, of a text that is short.
fn change(alloc: Global, session: &mut Session, text: &[u8]) -> Result<(), TextError> {
    if text.len() > 100 {
        return Ok(());
    }
    match rows(alloc, text) {
        Ok(list) => match list.rows().first() {
            Some(row) => play(session, row),
            None => Ok(()),
        },
        Err(Memory) => Err(TextError::Memory),
    }
}

#[test]
fn keeps_the_last_prices(rt: HostRuntime) -> Result<(), Fail> {
    let alloc = rt.alloc();
    let mut session = begun(alloc)?;
    // How many bidders are left, and the last prices before the outcome and after it.
    let cases: [(&[u8], usize, i64, i64); 5] = [
        (b"add,P,1,2\n", 2, 1, 3),
        (b"drop,P\n", 1, 3, 1),
        (b"add,R,1,9\n", 2, 1, 3),
        (b"drop,Q\n", 1, 3, 1),
        (b"drop,R\n", 0, 1, 1),
    ];
    for (row, bidders, before, after) in cases {
        assert_eq!(rt; change(alloc, &mut session, row), Ok(()));
        assert_eq!(rt; session.auction().count(), bidders);
        assert_eq!(rt; session.last().as_slice(), [before].as_slice());
        assert_eq!(rt; price(alloc, &mut session), Some(after));
        assert_eq!(rt; session.last().as_slice(), [after].as_slice());
    }
    Ok(())
}

#[test]
fn is_as_it_was_where_it_refuses(rt: HostRuntime) -> Result<(), Fail> {
    let alloc = rt.alloc();
    let mut session = begun(alloc)?;
    assert_eq!(rt; price(alloc, &mut session), Some(3));
    let cases: [(&[u8], Code); 4] = [
        (b"drop,S\n", Code::Other),
        (b"add,Q,-1,3\n", Code::Weight),
        (b"add,R,0,3\n", Code::Weight),
        (b"add,R,1\n", Code::Fields),
    ];
    for (row, code) in cases {
        let wrong = Err(TextError::Fault(Fault { at: 1, code }));
        assert_eq!(rt; change(alloc, &mut session, row), wrong);
        assert_eq!(rt; session.last().as_slice(), [3].as_slice());
        let auction = session.auction();
        assert_eq!(rt; auction.order.places(), [0, 1].as_slice());
        assert_eq!(rt; auction.count(), 2);
        assert_eq!(rt; (auction.cap(0), auction.cap(1)), (None, Some(1)));
        assert_eq!(rt; auction.bidder(0).1.bids().len(), 1);
        assert_eq!(rt; auction.bidder(1).1.bids().len(), 1);
    }
    Ok(())
}

#[test]
fn keeps_a_refusal_until_the_list_changes(rt: HostRuntime) -> Result<(), Fail> {
    let alloc = rt.alloc();
    let mut session = begun(alloc)?;
    assert_eq!(rt; price(alloc, &mut session), Some(3));
    assert_eq!(rt; change(alloc, &mut session, b"add,P,-2,4\n"), Ok(()));
    for _ in 0..2 {
        assert_eq!(rt; refused(alloc, &mut session), Some((0, 0, 1, -2)));
        assert_eq!(rt; session.last().as_slice(), [3].as_slice());
    }
    assert_eq!(rt; change(alloc, &mut session, b"add,P,2,4\n"), Ok(()));
    assert_eq!(rt; price(alloc, &mut session), Some(3));
    Ok(())
}
