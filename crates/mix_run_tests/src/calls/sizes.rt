// Every command on auctions at the greatest sizes: none of them gives up there, where memory is ample.
use crate::calls::{call, call_at_once, text_of};
use std::alloc::Global;
use std::test::Fail;

const FIVE_GOODS: &[u8] = b"mix,1\ngoods,A,B,C,D,E\nsupply,3,3,3,3,3\nreserve,0,0,0,0,0\n";

// One bidder with twelve bids of negative weight, each in a block of four bids that is convex by itself.
const TWELVE_NEGATIVES: &[u8] =
    b"bid,P,1,10,-,-,-,-\nbid,P,1,-,20,-,-,-\nbid,P,1,15,25,-,-,-\nbid,P,-1,10,20,-,-,-\nbid,P,1,-,11,-,-,-\nbid,P,1,-,-,21,-,-\nbid,P,1,-,16,26,-,-\nbid,P,-1,-,11,21,-,-\nbid,P,1,-,-,12,-,-\nbid,P,1,-,-,-,22,-\nbid,P,1,-,-,17,27,-\nbid,P,-1,-,-,12,22,-\nbid,P,1,-,-,-,13,-\nbid,P,1,-,-,-,-,23\nbid,P,1,-,-,-,18,28\nbid,P,-1,-,-,-,13,23\nbid,P,1,-,-,-,-,14\nbid,P,1,24,-,-,-,-\nbid,P,1,29,-,-,-,19\nbid,P,-1,24,-,-,-,14\nbid,P,1,15,-,-,-,-\nbid,P,1,-,-,25,-,-\nbid,P,1,20,-,30,-,-\nbid,P,-1,15,-,25,-,-\nbid,P,1,-,16,-,-,-\nbid,P,1,-,-,-,26,-\nbid,P,1,-,21,-,31,-\nbid,P,-1,-,16,-,26,-\nbid,P,1,-,-,17,-,-\nbid,P,1,-,-,-,-,27\nbid,P,1,-,-,22,-,32\nbid,P,-1,-,-,17,-,27\nbid,P,1,-,-,-,18,-\nbid,P,1,28,-,-,-,-\nbid,P,1,33,-,-,23,-\nbid,P,-1,28,-,-,18,-\nbid,P,1,-,-,-,-,19\nbid,P,1,-,29,-,-,-\nbid,P,1,-,34,-,-,24\nbid,P,-1,-,29,-,-,19\nbid,P,1,20,-,-,-,-\nbid,P,1,-,30,-,-,-\nbid,P,1,25,35,-,-,-\nbid,P,-1,20,30,-,-,-\nbid,P,1,-,21,-,-,-\nbid,P,1,-,-,31,-,-\nbid,P,1,-,26,36,-,-\nbid,P,-1,-,21,31,-,-\n";

// The output of a command, where its status is 0.
fn done(alloc: Global, word: &str, text: &[u8], tail: &[u8]) -> Result<Option<Vec<u8>>, Fail> {
    let text = text_of(alloc, text, tail, 1, b"")?;
    let (status, sink) = call(alloc, &[word], text, Vec::new(alloc), 65_536)?;
    if status == 0 {
        Ok(Some(sink.bytes().to_vec(alloc)?))
    } else {
        Ok(None)
    }
}

// Whether all commands are done: `check` on what `solve` prints.
fn all_done(alloc: Global, auction: &[u8], price: &[u8]) -> Result<bool, Fail> {
    for word in ["validate", "prices", "trail"] {
        if done(alloc, word, auction, b"")?.is_none() {
            return Ok(false);
        }
    }
    let Some(outcome) = done(alloc, "solve", auction, b"")? else {
        return Ok(false);
    };
    let checked = done(alloc, "check", auction, &outcome)?;
    Ok(checked.is_some() && done(alloc, "utility", auction, price)?.is_some())
}

// Bids of one good by 64 bidders, each for one unit.
fn many_bidders(alloc: Global) -> Result<Vec<u8>, Fail> {
    let mut text = text_of(
        alloc,
        b"mix,1\ngoods,A\nsupply,40\nreserve,1\n",
        b"",
        0,
        b"",
    )?;
    for number in 1..65_u32 {
        let bid = format!(in alloc; "bid,B{number},1,{number}\n")?;
        text.extend_from_slice(bid.as_bytes())?;
    }
    text.extend_from_slice(b"end\n")?;
    Ok(text)
}

const EIGHT_GOODS: &[u8] =
    b"mix,2\ngoods,A,B,C,D,E,F,G,H\nsupply,30,30,30,30,30,30,30,30\nreserve,0,0,0,0,0,0,0,0\n";

// One bidder with a hundred bids of negative weight, each in a block of four bids that is convex by itself.
fn many_negatives(alloc: Global) -> Result<Vec<u8>, Fail> {
    let mut text = EIGHT_GOODS.to_vec(alloc)?;
    for number in 100..200_u32 {
        let block = format!(in alloc;
            "bid,P,1,{number}0,-,-,-,-,-,-,-\nbid,P,1,-,-,-,{number}1,-,-,-,-\nbid,P,1,{number}5,-,-,{number}6,-,-,-,-\nbid,P,-1,{number}0,-,-,{number}1,-,-,-,-\n"
        )?;
        text.extend_from_slice(block.as_bytes())?;
    }
    text.extend_from_slice(b"end\n")?;
    Ok(text)
}

// Bids of 256 bidders, each for one unit of any of eight goods.
fn more_bidders(alloc: Global) -> Result<Vec<u8>, Fail> {
    let mut text = EIGHT_GOODS.to_vec(alloc)?;
    for number in 0..256_u32 {
        let bid = format!(in alloc;
            "bid,B{number},1,{number},{number},{number},{number},{number},{number},{number},{number}\n"
        )?;
        text.extend_from_slice(bid.as_bytes())?;
    }
    text.extend_from_slice(b"end\n")?;
    Ok(text)
}

#[test]
fn many_negative_bids(rt: HostRuntime) -> Result<(), Fail> {
    let alloc = rt.alloc();
    let negatives = many_negatives(alloc)?;
    assert!(rt; all_done(alloc, &negatives, b"price,1,2,3,4,5,6,7,8\n")?);
    Ok(())
}

#[test]
fn many_bids_for_eight_goods(rt: HostRuntime) -> Result<(), Fail> {
    let alloc = rt.alloc();
    let bids = text_of(
        alloc,
        EIGHT_GOODS,
        b"bid,P,1,9,8,7,6,5,4,3,2\n",
        400,
        b"end\n",
    )?;
    assert!(rt; all_done(alloc, &bids, b"price,1,2,3,4,5,6,7,8\n")?);
    Ok(())
}

#[test]
fn many_bidders_for_eight_goods(rt: HostRuntime) -> Result<(), Fail> {
    let alloc = rt.alloc();
    let bidders = more_bidders(alloc)?;
    assert!(rt; done(alloc, "prices", &bidders, b"")?.is_some());
    Ok(())
}

#[test]
fn the_greatest_sizes(rt: HostRuntime) -> Result<(), Fail> {
    let alloc = rt.alloc();
    let five = text_of(alloc, FIVE_GOODS, TWELVE_NEGATIVES, 1, b"end\n")?;
    assert!(rt; all_done(alloc, &five, b"price,1,2,3,4,5\n")?);
    let bids = text_of(alloc, FIVE_GOODS, b"bid,P,1,9,8,7,6,5\n", 400, b"end\n")?;
    assert!(rt; all_done(alloc, &bids, b"price,1,2,3,4,5\n")?);
    let bidders = many_bidders(alloc)?;
    assert!(rt; all_done(alloc, &bidders, b"price,1\n")?);
    Ok(())
}

// So many line feeds.
fn blank_lines(alloc: Global, count: usize) -> Result<Vec<u8>, Fail> {
    Ok(vec![in alloc; b'\n'; count]?)
}

// As many bytes as a text may have: rows of 47 bytes, and blank lines after them.
#[test]
fn the_longest_text(rt: HostRuntime) -> Result<(), Fail> {
    let alloc = rt.alloc();
    let mut text = b"mix,1\ngoods,A\nsupply,1\nreserve,0\nbid,P,1,5\nend\n".to_vec(alloc)?;
    text.extend_from_slice(&blank_lines(alloc, 16_777_169)?)?;
    assert_eq!(rt; text.len(), 16_777_216);
    let (status, sink) = call_at_once(alloc, "prices", text)?;
    assert_eq!(rt; status, 0);
    assert_eq!(rt; sink.bytes(), b"price,0\nend\n".as_slice());
    Ok(())
}
