// Auctions that change: what they are after bids are added and bidders leave, and the limits that a bid more would pass.
ghost use Rattle.std.specs.Prelude.{◌≡◌, ◌≤◌, None, true, length, IfSome};
ghost use Rattle.mix_bids.specs.Bids.{IsBid};
ghost use Rattle.mix_text.specs.AuctionTexts.{auction_text};
ghost use Rattle.mix_text.specs.Changes.{cap_of_name, limit_of_added};
ghost use Rattle.mix_text.specs.Reading.{is_negative};
ghost use Rattle.mix_text.specs.Spelling.{is_name};

use crate::auction::Auction;
use crate::faults::What;
use crate::reading::read_auction;
use crate::row::Row;
use crate::row_list::rows;
use crate::row_reading::{read_bid_row, row_begins};
use crate::spelling::{Name, read_name};
use mix_bids::{Bid, BidList, Values};
use std::alloc::Global;
use std::test::Fail;

/// The auction of a short text.
fn auction_of(alloc: Global, text: &[u8]) -> Option<Auction> {
    if text.len() > 1000 {
        return None;
    }
    let (auction, _) = read_auction(alloc, text).ok()?;
    Some(auction)
}

/// The name and the bid over so many goods that a row tells.
fn told(row: &Row, goods: usize) -> Option<(Name, Bid)>
    requires { (1 ≤ goods) × (goods ≤ 8) }
    ensures name { IfSome result (λ told. is_name told.0.bytes ≡ true) }
    ensures bid { IfSome result (λ told. IsBid goods told.1) }
{
    match read_bid_row(row, goods) {
        Ok(told) => Some(told),
        Err(_) => None,
    }
}

fn copied(bid: &Bid) -> Bid
    ensures { result ≡ bid.now }
{
    let mut values = Values::new();
    for offer in bid.values.as_slice() {
        values.push(*offer);
    }
    Bid {
        weight: bid.weight,
        values,
    }
}

/// Whether a bid may be added: it passes no limit, and where it is negative the bidder has no cap.
fn may_add(alloc: Global, auction: &Auction, name: &Name, bid: &Bid) -> bool
    requires { IsBid (length auction.now.goods) bid.now }
    ensures limit { result ≡ true → limit_of_added (auction_text auction.now) name.now.bytes bid.now ≡ None }
    ensures cap { result ≡ true → is_negative bid.now ≡ true → cap_of_name (auction_text auction.now) name.now.bytes ≡ None }
{
    let Ok(None) = auction.limit_of_added(alloc, name, copied(bid)) else {
        return false;
    };
    bid.weight >= 0 || auction.cap_of_name(name).is_none()
}

/// Adds the bid of a row, where it may be added.
fn add(alloc: Global, auction: &mut Auction, row: &Row) -> bool {
    let Some((name, bid)) = told(row, auction.goods.len()) else {
        return false;
    };
    if !may_add(alloc, auction, &name, &bid) {
        return false;
    }
    auction.add_bid(&name, bid).is_ok()
}

/// Drops the bidder whose name a row has after its word.
fn leave(auction: &mut Auction, row: &Row) -> bool {
    if row.len() < 2 {
        return false;
    }
    match read_name(row.field(1)) {
        Ok(name) => auction.drop_bidder(&name),
        Err(_) => false,
    }
}

/// Makes the changes that rows tell, `drop` and a name or a bid, and says how many of them could be made.
fn change(alloc: Global, auction: &mut Auction, text: &[u8]) -> usize {
    if text.len() > 1000 {
        return 0;
    }
    let Ok(list) = rows(alloc, text) else {
        return 0;
    };
    let mut made = 0usize;
    for row in list.rows() {
        let done = if row_begins(row, b"drop") {
            leave(auction, row)
        } else {
            add(alloc, auction, row)
        };
        if done {
            made = made.saturating_add(1);
        }
    }
    made
}

fn are_same_bids(one: &BidList, other: &BidList) -> bool {
    if one.bids().len() != other.bids().len() {
        return false;
    }
    for k in 0..one.bids().len() {
        let bid = &one.bids()[k];
        let same = &other.bids()[k];
        if bid.weight != same.weight || bid.values.as_slice() != same.values.as_slice() {
            return false;
        }
    }
    true
}

/// Whether two auctions have the same bidders with the same bids and caps, in the same orders.
fn are_same(one: &Auction, other: &Auction) -> bool {
    if one.count() != other.count() || one.order.places() != other.order.places() {
        return false;
    }
    for k in 0..one.count() {
        let (name, list) = one.bidder(k);
        let (same_name, same_list) = other.bidder(k);
        if *name != *same_name || !are_same_bids(list, same_list) || one.cap(k) != other.cap(k) {
            return false;
        }
    }
    true
}

const THREE: &[u8] =
    b"mix,3\ngoods,A\nsupply,5\nreserve,0\nbid,P,1,5\nbid,Q,2,4\nbid,P,1,3\nbid,R,1,1\ncap,Q,7\norder,R,P,Q\nend\n";

const FIRST: &[u8] = b"mix,1\ngoods,A\nsupply,5\nreserve,0\nbid,P,1,5\nbid,Q,2,4\nend\n";

#[test]
fn changed_auctions(rt: HostRuntime) -> Result<(), Fail> {
    let alloc = rt.alloc();
    let cases: [(&[u8], &[u8], usize, &[u8]); 9] = [
        (
            THREE,
            b"drop,Q\n",
            1,
            b"mix,3\ngoods,A\nsupply,5\nreserve,0\nbid,P,1,5\nbid,P,1,3\nbid,R,1,1\norder,R,P\nend\n",
        ),
        (
            THREE,
            b"drop,P\n",
            1,
            b"mix,3\ngoods,A\nsupply,5\nreserve,0\nbid,Q,2,4\nbid,R,1,1\ncap,Q,7\norder,R,Q\nend\n",
        ),
        (
            THREE,
            b"drop,Q\nbid,Q,-1,8\n",
            2,
            b"mix,3\ngoods,A\nsupply,5\nreserve,0\nbid,P,1,5\nbid,P,1,3\nbid,R,1,1\nbid,Q,-1,8\norder,R,P,Q\nend\n",
        ),
        (
            THREE,
            b"drop,R\nbid,R,3,2\nbid,P,1,2\n",
            3,
            b"mix,3\ngoods,A\nsupply,5\nreserve,0\nbid,P,1,5\nbid,Q,2,4\nbid,P,1,3\nbid,P,1,2\nbid,R,3,2\ncap,Q,7\norder,P,Q,R\nend\n",
        ),
        (THREE, b"bid,Q,-1,8\ndrop,S\n", 0, THREE),
        (
            FIRST,
            b"bid,S,1,2\nbid,Q,-3,1\n",
            2,
            b"mix,1\ngoods,A\nsupply,5\nreserve,0\nbid,P,1,5\nbid,Q,2,4\nbid,S,1,2\nbid,Q,-3,1\nend\n",
        ),
        (
            FIRST,
            b"drop,P\n",
            1,
            b"mix,1\ngoods,A\nsupply,5\nreserve,0\nbid,Q,2,4\nend\n",
        ),
        (
            FIRST,
            b"drop,P\ndrop,P\ndrop,Q\n",
            2,
            b"mix,1\ngoods,A\nsupply,5\nreserve,0\nend\n",
        ),
        (
            b"mix,2\ngoods,A\nsupply,5\nreserve,0\nbid,P,1,5\nbid,Q,1,5\norder,Q,P\nend\n",
            b"bid,R,1,5\ndrop,P\n",
            2,
            b"mix,2\ngoods,A\nsupply,5\nreserve,0\nbid,Q,1,5\nbid,R,1,5\norder,Q,R\nend\n",
        ),
    ];
    for (before, changes, made, after) in cases {
        let mut auction = auction_of(alloc, before).ok_or("an auction")?;
        let wanted = auction_of(alloc, after).ok_or("an auction")?;
        assert_eq!(rt; change(alloc, &mut auction, changes), made);
        assert!(rt; are_same(&auction, &wanted));
    }
    Ok(())
}

/// A row with another name, of two letters, for each number up to 256.
fn named(line: [u8; 11], k: usize) -> [u8; 11] {
    let mut named = line;
    named[4] = b'A' + (k / 16 % 26) as u8;
    named[5] = b'a' + (k % 16) as u8;
    named
}

/// The limit that the bid of a row would pass.
fn limit_past(alloc: Global, auction: &Auction, text: &[u8]) -> Option<What> {
    if text.len() > 1000 {
        return None;
    }
    let list = rows(alloc, text).ok()?;
    let (name, bid) = told(list.rows().first()?, auction.goods.len())?;
    auction.limit_of_added(alloc, &name, bid).ok()?
}

/// The limit that a bid more would pass after so many of the same form, each under another name or all under one.
fn limit_after(
    alloc: Global,
    text: &[u8],
    line: [u8; 11],
    count: usize,
    apart: bool,
) -> Option<What> {
    let mut auction = auction_of(alloc, text)?;
    for k in 0..count {
        let next = if apart { named(line, k) } else { line };
        if change(alloc, &mut auction, &next) != 1 {
            return None;
        }
    }
    let last = if apart { named(line, count) } else { line };
    limit_past(alloc, &auction, &last)
}

#[test]
fn limits_of_added_bids(rt: HostRuntime) -> Result<(), Fail> {
    let alloc = rt.alloc();
    let one: &[u8] = b"mix,1\ngoods,A\nsupply,5\nreserve,0\nend\n";
    let two: &[u8] = b"mix,2\ngoods,A\nsupply,5\nreserve,0\nend\n";
    let three: &[u8] = b"mix,3\ngoods,A\nsupply,5\nreserve,0\nend\n";
    let positive = *b"bid,AA,10,5";
    let negative = *b"bid,AA,-1,5";
    let cases: [(&[u8], [u8; 11], usize, bool, Option<What>); 8] = [
        (one, positive, 63, true, None),
        (one, positive, 64, true, Some(What::Bidders)),
        (two, positive, 64, true, None),
        (three, positive, 256, true, Some(What::Bidders)),
        (one, positive, 400, false, Some(What::Bids)),
        (three, positive, 400, false, Some(What::Bids)),
        (one, negative, 12, false, Some(What::Negatives)),
        (two, negative, 13, false, None),
    ];
    for (text, line, count, apart, wanted) in cases {
        assert_eq!(rt; limit_after(alloc, text, line, count, apart), wanted);
    }
    // Eight bids at one level with eight leads for each of seven other choices: 9 to the power of 7 cells.
    let seven =
        b"mix,2\ngoods,A,B,C,D,E,F,G,H\nsupply,1,1,1,1,1,1,1,1\nreserve,0,0,0,0,0,0,0,0\nbid,P,-1,9,1,1,1,1,1,1,1\nbid,P,-1,9,2,2,2,2,2,2,2\nbid,P,-1,9,3,3,3,3,3,3,3\nbid,P,-1,9,4,4,4,4,4,4,4\nbid,P,-1,9,5,5,5,5,5,5,5\nbid,P,-1,9,6,6,6,6,6,6,6\nbid,P,-1,9,7,7,7,7,7,7,7\nend\n";
    let auction = auction_of(alloc, seven).ok_or("an auction")?;
    assert_eq!(rt;
        limit_past(alloc, &auction, b"bid,P,-1,9,8,8,8,8,8,8,8\n"),
        Some(What::Cells)
    );
    assert_eq!(rt;
        limit_past(alloc, &auction, b"bid,Q,-1,9,8,8,8,8,8,8,8\n"),
        None
    );
    Ok(())
}
