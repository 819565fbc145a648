// What the checker says of outcomes, true and forged, where memory is ample.
use crate::{Reason, Verdict, check};
use mix_answer::read_outcome;
use mix_num::Set;
use mix_text::read_auction;
use std::alloc::Global;
use std::test::Fail;

// X bids for the goods as substitutes, Y for the first alone.
const SUBSTITUTES: &[u8] =
    b"mix,1\ngoods,A,B\nsupply,1,1\nreserve,0,0\nbid,X,1,4,-\nbid,X,1,-,4\nbid,X,1,6,6\nbid,X,-1,4,4\nbid,Y,1,5,-\nend\n";

// The same with a reserve above what X bids.
const DEARER: &[u8] =
    b"mix,1\ngoods,A,B\nsupply,1,1\nreserve,0,7\nbid,X,1,4,-\nbid,X,1,-,4\nbid,X,1,6,6\nbid,X,-1,4,4\nbid,Y,1,5,-\nend\n";

// X bids for either good alone, and takes back a bid for both.
const TAKEN_BACK: &[u8] =
    b"mix,1\ngoods,A,B\nsupply,1,1\nreserve,0,0\nbid,X,1,6,-\nbid,X,1,-,6\nbid,X,-1,6,6\nend\n";

// And so does Z after X.
const TWICE: &[u8] =
    b"mix,1\ngoods,A,B\nsupply,1,1\nreserve,0,0\nbid,X,1,6,-\nbid,X,1,-,6\nbid,X,-1,6,6\nbid,Z,1,6,-\nbid,Z,1,-,6\nbid,Z,-1,6,6\nend\n";

// Two bidders who each want one good, whichever it is; Q is served first.
const LAST_FIRST: &[u8] =
    b"mix,2\ngoods,A,B\nsupply,1,1\nreserve,0,0\nbid,P,1,5,5\nbid,Q,1,5,5\norder,Q,P\nend\n";

// P bids for three units of one good, and has a cap of two.
const CAPPED: &[u8] =
    b"mix,3\ngoods,A\nsupply,3\nreserve,0\nbid,P,1,9\nbid,P,1,7\nbid,P,1,5\ncap,P,2\nend\n";

// The verdict on the outcome of these lines, written after an auction.
fn verdict(alloc: Global, auction: &[u8], lines: [&[u8]; 7]) -> Result<Verdict, Fail> {
    let mut text = auction.to_vec(alloc)?;
    for line in lines {
        text.extend_from_slice(line)?;
    }
    if text.len() > 16_777_216 {
        return Err("a shorter text".into());
    }
    let (auction, rest) = read_auction(alloc, &text)?;
    let outcome = read_outcome(alloc, &auction, &rest)
        .ok()
        .ok_or("an outcome")?;
    Ok(check(alloc, &auction, &outcome).ok().ok_or("memory")?)
}

#[test]
fn answers(rt: HostRuntime) -> Result<(), Fail> {
    let alloc = rt.alloc();
    let head = b"outcome,1\ncleared\n";
    let price = b"price,4,0\n";
    let x = b"share,X,0,1,0\n";
    let y = b"share,Y,1,0,4\n";
    let back = b"return,0,0\n";
    let tights = b"tight,X,A,3,1\ntight,X,B,4,0\ntight,Y,A,2,0\ntight,Y,B,4,0\n";
    let end = b"end\n";
    let cases: [(&[u8], [&[u8]; 7], Verdict); 12] = [
        (
            SUBSTITUTES,
            [head, price, x, y, back, tights, end],
            Verdict::Yes,
        ),
        (
            DEARER,
            [head, price, x, y, back, tights, end],
            Verdict::No(Reason::Floor { good: 1 }),
        ),
        (
            SUBSTITUTES,
            [head, price, b"share,X,1,1,4\n", y, back, tights, end],
            Verdict::No(Reason::Sum { good: 0, sum: 2 }),
        ),
        (
            SUBSTITUTES,
            [head, price, x, y, b"return,0,1\n", tights, end],
            Verdict::No(Reason::Sum { good: 1, sum: 2 }),
        ),
        (
            SUBSTITUTES,
            [
                head,
                price,
                x,
                b"share,Y,0,0,0\n",
                b"return,1,0\n",
                tights,
                end,
            ],
            Verdict::No(Reason::Return { good: 0 }),
        ),
        (
            SUBSTITUTES,
            [head, b"price,0,0\n", x, y, back, tights, end],
            Verdict::No(Reason::Demand {
                bidder: 0,
                set: Set::from_bits(1),
            }),
        ),
        (
            SUBSTITUTES,
            [
                head,
                price,
                b"share,X,1,0,4\n",
                b"share,Y,0,1,0\n",
                back,
                tights,
                end,
            ],
            Verdict::No(Reason::Demand {
                bidder: 0,
                set: Set::from_bits(3),
            }),
        ),
        (
            SUBSTITUTES,
            [
                head,
                b"price,5,0\n",
                x,
                b"share,Y,1,0,5\n",
                back,
                tights,
                end,
            ],
            Verdict::No(Reason::Lower {
                set: Set::from_bits(2),
            }),
        ),
        (
            SUBSTITUTES,
            [head, b"price,4,1\n", x, y, back, tights, end],
            Verdict::No(Reason::Lower {
                set: Set::from_bits(4),
            }),
        ),
        (
            SUBSTITUTES,
            [head, price, x, b"share,Y,1,0,5\n", back, tights, end],
            Verdict::No(Reason::Pay {
                bidder: 1,
                amount: 4,
            }),
        ),
        (
            SUBSTITUTES,
            [
                head,
                price,
                x,
                y,
                back,
                b"tight,X,A,3,0\ntight,X,B,4,0\ntight,Y,A,2,0\ntight,Y,B,4,0\n",
                end,
            ],
            Verdict::No(Reason::Pair { bidder: 0, good: 0 }),
        ),
        (
            SUBSTITUTES,
            [
                head,
                price,
                x,
                y,
                back,
                b"tight,X,A,2,0\ntight,X,B,4,0\ntight,Y,A,2,0\ntight,Y,B,4,0\n",
                end,
            ],
            Verdict::No(Reason::Tight {
                bidder: 0,
                good: 0,
                bound: 1,
            }),
        ),
    ];
    for (auction, lines, expected) in cases {
        assert_eq!(rt; verdict(alloc, auction, lines)?, expected);
    }
    Ok(())
}

// Q, who is served first, is to get the first good; of two who have no right pairs P is named, who comes first among the bids.
#[test]
fn answers_in_tie_order(rt: HostRuntime) -> Result<(), Fail> {
    let alloc = rt.alloc();
    let head = b"outcome,2\norder,Q,P\ncleared\nprice,0,0\n";
    let back = b"return,0,0\n";
    let end = b"end\n";
    let served: &[u8] = b"share,P,0,1,0\nshare,Q,1,0,0\n";
    let as_they_stand: &[u8] = b"share,P,1,0,0\nshare,Q,0,1,0\n";
    let cases: [(&[u8], &[u8], &[u8], Verdict); 5] = [
        (
            served,
            b"tight,P,A,7,5\ntight,P,B,4,0\n",
            b"tight,Q,A,2,0\ntight,Q,B,6,0\n",
            Verdict::Yes,
        ),
        (
            as_they_stand,
            b"tight,P,A,2,0\ntight,P,B,6,0\n",
            b"tight,Q,A,7,5\ntight,Q,B,4,0\n",
            Verdict::No(Reason::Tight {
                bidder: 1,
                good: 0,
                bound: 1,
            }),
        ),
        (
            served,
            b"tight,P,A,7,5\ntight,P,B,4,0\n",
            b"tight,Q,A,2,0\ntight,Q,B,6,2\n",
            Verdict::No(Reason::Tight {
                bidder: 1,
                good: 1,
                bound: 2,
            }),
        ),
        (
            served,
            b"tight,P,A,7,5\ntight,P,B,4,2\n",
            b"tight,Q,A,2,0\ntight,Q,B,6,1\n",
            Verdict::No(Reason::Tight {
                bidder: 0,
                good: 1,
                bound: 2,
            }),
        ),
        (
            served,
            b"tight,P,A,7,4\ntight,P,B,4,0\n",
            b"tight,Q,A,3,0\ntight,Q,B,6,0\n",
            Verdict::No(Reason::Pair { bidder: 0, good: 0 }),
        ),
    ];
    for (shares, of_first, of_last, expected) in cases {
        let lines = [head, shares, back, of_first, of_last, end, b""];
        assert_eq!(rt; verdict(alloc, LAST_FIRST, lines)?, expected);
    }
    Ok(())
}

#[test]
fn refusals(rt: HostRuntime) -> Result<(), Fail> {
    let alloc = rt.alloc();
    let cases: [(&[u8], &[u8], Verdict); 4] = [
        (TAKEN_BACK, b"refused,X,A,B,5,5,-1\n", Verdict::Yes),
        (
            TAKEN_BACK,
            b"refused,X,A,B,6,6,-1\n",
            Verdict::No(Reason::Facet { weight: 0 }),
        ),
        (TWICE, b"refused,X,A,B,5,5,-1\n", Verdict::Yes),
        (
            TWICE,
            b"refused,Z,A,B,5,5,-1\n",
            Verdict::No(Reason::Earlier { bidder: 0 }),
        ),
    ];
    for (auction, line, expected) in cases {
        let found = verdict(
            alloc,
            auction,
            [b"outcome,1\n", line, b"", b"", b"", b"", b"end\n"],
        )?;
        assert_eq!(rt; found, expected);
    }
    let cleared: [&[u8]; 7] = [
        b"outcome,1\ncleared\n",
        b"price,0,0\n",
        b"share,X,0,0,0\n",
        b"",
        b"return,1,1\n",
        b"tight,X,A,2,0\ntight,X,B,4,0\n",
        b"end\n",
    ];
    assert_eq!(rt;
        verdict(alloc, TAKEN_BACK, cleared)?,
        Verdict::No(Reason::Invalid { bidder: 0 })
    );
    Ok(())
}

#[test]
fn of_a_bidder_with_a_cap(rt: HostRuntime) -> Result<(), Fail> {
    let alloc = rt.alloc();
    let head = b"outcome,2\norder,P\n";
    let cleared = b"cleared\nprice,0\n";
    let tights = b"tight,P,A,2,0\n";
    let end = b"end\n";
    let cases: [([&[u8]; 7], Verdict); 3] = [
        (
            [
                head,
                cleared,
                b"share,P,2,0\n",
                b"return,1\n",
                tights,
                end,
                b"",
            ],
            Verdict::Yes,
        ),
        (
            [
                head,
                cleared,
                b"share,P,3,0\n",
                b"return,0\n",
                tights,
                end,
                b"",
            ],
            Verdict::No(Reason::Demand {
                bidder: 0,
                set: Set::from_bits(2),
            }),
        ),
        (
            [head, b"refused,P,-,A,7,-1\n", end, b"", b"", b"", b""],
            Verdict::No(Reason::Facet { weight: 1 }),
        ),
    ];
    for (lines, expected) in cases {
        assert_eq!(rt; verdict(alloc, CAPPED, lines)?, expected);
    }
    Ok(())
}
