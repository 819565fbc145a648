// The two formats: which of them a text names, and the limits of each.
use crate::calls::{call, gives, text_of};
use std::alloc::Global;
use std::test::Fail;

// The rows of eight goods, of each one unit; bids follow.
const EIGHT_GOODS: &[u8] =
    b"goods,A,B,C,D,E,F,G,H\nsupply,1,1,1,1,1,1,1,1\nreserve,0,0,0,0,0,0,0,0\n";

const ONE_OF_EIGHT: &[u8] = b"bid,P,1,3,3,3,3,3,3,3,3\nend\n";

// A text of these rows.
fn joined(alloc: Global, rows: &[&[u8]]) -> Result<Vec<u8>, Fail> {
    let mut text = Vec::new(alloc);
    for piece in rows {
        text.extend_from_slice(piece)?;
    }
    Ok(text)
}

// The first of eight equal goods goes to the one bidder.
#[test]
fn eight_goods(rt: HostRuntime) -> Result<(), Fail> {
    let alloc = rt.alloc();
    let text = joined(alloc, &[b"mix,2\n", EIGHT_GOODS, ONE_OF_EIGHT])?;
    let (status, sink) = call(alloc, &["solve"], text, Vec::new(alloc), 4096)?;
    assert_eq!(rt; status, 0);
    assert!(rt;
        sink.bytes().starts_with(
            b"outcome,2\norder,P\ncleared\nprice,0,0,0,0,0,0,0,0\nshare,P,1,0,0,0,0,0,0,0,0\nreturn,0,1,1,1,1,1,1,1\ntight,P,A,"
        )
    );
    assert!(rt; sink.bytes().ends_with(b"\nend\n"));
    Ok(())
}

// A first row, and what is printed where eight goods come after it.
#[test]
fn headers(rt: HostRuntime) -> Result<(), Fail> {
    let alloc = rt.alloc();
    let cases: [(&[u8], u8, &[u8]); 10] = [
        (b"mix,2\n", 0, b"price,0,0,0,0,0,0,0,0\nend\n"),
        (b"mix,1\n", 4, b"limit,2,goods\n"),
        (b"mix,3\n", 0, b"price,0,0,0,0,0,0,0,0\nend\n"),
        (b"mix,4\n", 3, b"fault,1,header\n"),
        (b"mix,0\n", 3, b"fault,1,header\n"),
        (b"mix,02\n", 3, b"fault,1,header\n"),
        (b"mix,12\n", 3, b"fault,1,header\n"),
        (b"mix\n", 3, b"fault,1,header\n"),
        (b"mix,2,2\n", 3, b"fault,1,header\n"),
        (b"goods,2\n", 3, b"fault,1,header\n"),
    ];
    for (header, status, output) in cases {
        let text = joined(alloc, &[header, EIGHT_GOODS, ONE_OF_EIGHT])?;
        assert!(rt; gives(alloc, "prices", text, status, output)?);
    }
    Ok(())
}

// Nine goods are too many in both formats, and six in the first.
#[test]
fn goods(rt: HostRuntime) -> Result<(), Fail> {
    let alloc = rt.alloc();
    let cases: [(&[u8], u8, &[u8]); 6] = [
        (b"mix,1\ngoods,A,B,C,D,E\n", 3, b"fault,3,end\n"),
        (b"mix,1\ngoods,A,B,C,D,E,F\n", 4, b"limit,2,goods\n"),
        (b"mix,2\ngoods,A,B,C,D,E,F,G,H\n", 3, b"fault,3,end\n"),
        (b"mix,2\ngoods,A,B,C,D,E,F,G,H,I\n", 4, b"limit,2,goods\n"),
        (
            b"mix,2\ngoods,A,B,C,D,E,F,G,H,A\n",
            3,
            b"fault,2,repeated\n",
        ),
        (b"mix,2\ngoods,A,B,C,D,E,F,G,H,9\n", 3, b"fault,2,name\n"),
    ];
    for (text, status, output) in cases {
        assert!(rt; gives(alloc, "utility", text.to_vec(alloc)?, status, output)?);
    }
    Ok(())
}

// The text of a format with a bid for one good by each of so many bidders.
fn bidders(alloc: Global, format: u8, count: u32) -> Result<Vec<u8>, Fail> {
    let header = format!(in alloc; "mix,{format}\ngoods,A\nsupply,40\nreserve,1\n")?;
    let mut text = header.as_bytes().to_vec(alloc)?;
    for number in 0..count {
        let bid = format!(in alloc; "bid,B{number},1,{number}\n")?;
        text.extend_from_slice(bid.as_bytes())?;
    }
    text.extend_from_slice(b"end\n")?;
    Ok(text)
}

// Each bids its number for one of 40 units, so the price is the forty-first greatest bid.
#[test]
fn numbers_of_bidders(rt: HostRuntime) -> Result<(), Fail> {
    let alloc = rt.alloc();
    let cases: [(u8, u32, u8, &[u8]); 4] = [
        (1, 64, 0, b"price,23\nend\n"),
        (1, 65, 4, b"limit,69,bidders\n"),
        (2, 256, 0, b"price,215\nend\n"),
        (2, 257, 4, b"limit,261,bidders\n"),
    ];
    for (format, count, status, output) in cases {
        let text = bidders(alloc, format, count)?;
        assert!(rt; gives(alloc, "prices", text, status, output)?);
    }
    Ok(())
}

// In the second format negative bids are not counted by themselves, and bids are as in the first.
#[test]
fn numbers_of_bids(rt: HostRuntime) -> Result<(), Fail> {
    let alloc = rt.alloc();
    let one_good: &[u8] = b"mix,2\ngoods,A\nsupply,1\nreserve,0\n";
    let cases: [(&[u8], usize, u8, &[u8]); 4] = [
        (
            b"bid,P,-1,5\n",
            13,
            1,
            b"outcome,2\norder,P\nrefused,P,-,A,5,-13\nend\n",
        ),
        (
            b"bid,P,-1,5\n",
            400,
            1,
            b"outcome,2\norder,P\nrefused,P,-,A,5,-400\nend\n",
        ),
        (b"bid,P,-1,5\n", 401, 4, b"limit,405,bids\n"),
        (b"bid,P,1,5\n", 401, 4, b"limit,405,bids\n"),
    ];
    for (bid, count, status, output) in cases {
        let text = text_of(alloc, one_good, bid, count, b"end\n")?;
        assert!(rt; gives(alloc, "validate", text, status, output)?);
    }
    Ok(())
}

// Bids of weight -1 at 5 for the first of eight goods and at 1, 2, and so on for all others.
fn many_cells(alloc: Global, count: u32) -> Result<Vec<u8>, Fail> {
    let mut text = joined(alloc, &[b"mix,2\n", EIGHT_GOODS])?;
    for number in 1..=count {
        let bid = format!(in alloc;
            "bid,P,-1,5,{number},{number},{number},{number},{number},{number},{number}\n"
        )?;
        text.extend_from_slice(bid.as_bytes())?;
    }
    Ok(text)
}

// Seven such bids have 2,144,192 cells. With the eighth there are 4,842,105: nothing against A alone has 9 to the power 7.
#[test]
fn cells(rt: HostRuntime) -> Result<(), Fail> {
    let alloc = rt.alloc();
    let mut seven = many_cells(alloc, 7)?;
    seven.extend_from_slice(b"end\n")?;
    let (status, sink) = call(alloc, &["solve"], seven, Vec::new(alloc), 4096)?;
    assert_eq!(rt; status, 1);
    assert!(rt; sink.bytes().starts_with(b"outcome,2\norder,P\nrefused,P,"));
    let tails: [(&[u8], u8, &[u8]); 4] = [
        (b"", 4, b"limit,12,cells\n"),
        (b"end\n", 4, b"limit,12,cells\n"),
        (b"bid,P,0,1,1,1,1,1,1,1,1\n", 4, b"limit,12,cells\n"),
        (b"x\n", 4, b"limit,12,cells\n"),
    ];
    for (tail, status, output) in tails {
        let mut text = many_cells(alloc, 8)?;
        text.extend_from_slice(tail)?;
        assert!(rt; gives(alloc, "solve", text, status, output)?);
    }
    // Such bids of positive weight have no cells.
    let front = joined(alloc, &[b"mix,2\n", EIGHT_GOODS])?;
    let positive = text_of(alloc, &front, b"bid,P,1,5,1,2,3,4,5,6,7\n", 9, b"end\n")?;
    assert!(rt; gives(alloc, "validate", positive, 0, b"valid,P,9\nend\n")?);
    Ok(())
}
