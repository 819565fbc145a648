// Whole calls on devices in memory: which text is printed with which status where memory is ample.
mod caps;
mod compare;
mod devices;
mod formats;
mod outcomes;
mod range;
mod session;
mod sizes;
mod tables;
mod upgrade;

use mix_io::{MemorySink, MemorySource};
use mix_run::run;
use std::alloc::Global;
use std::test::Fail;

pub const AUCTION: &[u8] =
    b"mix,1\ngoods,A,B\nsupply,1,1\nreserve,0,0\nbid,X,1,4,-\nbid,X,1,-,4\nbid,X,1,6,6\nbid,X,-1,4,4\nbid,Y,1,5,-\nend\n";

// Bids of one good follow.
pub const ONE_GOOD: &[u8] = b"mix,1\ngoods,A\nsupply,1\nreserve,0\n";

// Bids of two goods follow.
pub const TWO_GOODS: &[u8] = b"mix,1\ngoods,A,B\nsupply,1,1\nreserve,0,0\n";

// The bids of the auction, those of its bidders mingled.
pub const MINGLED: &[u8] =
    b"bid,X,1,4,-\nbid,Y,1,5,-\nbid,X,1,-,4\nbid,X,1,6,6\nbid,X,-1,4,4\nend\n";

// The auction as a spreadsheet saves it, up to its last bid.
pub const SPREAD: &[u8] =
    b"mix,1,,,\r\ngoods,A,B,,\r\nsupply,1,1,,\r\nreserve,0,0,,\r\nbid,X,1,4,-\r\nbid,X,1,-,4\r\nbid,X,1,6,6\r\nbid,X,-1,4,4\r\nbid,Y,1,5,-\r\n,,,,\r\n";

pub const MARK: &[u8] = b"\xEF\xBB\xBF";

// What stands at the front, and then `count` times `line`, and then `tail`.
pub fn text_of(
    alloc: Global,
    front: &[u8],
    line: &[u8],
    count: usize,
    tail: &[u8],
) -> Result<Vec<u8>, Fail> {
    let mut text = front.to_vec(alloc)?;
    for _ in 0..count {
        text.extend_from_slice(line)?;
    }
    text.extend_from_slice(tail)?;
    Ok(text)
}

// The words as a command line has them.
pub fn words_of(alloc: Global, words: &[&str]) -> Result<Vec<String>, Fail> {
    let mut named = Vec::new(alloc);
    for word in words {
        named.push(String::from_str(alloc, word)?)?;
    }
    Ok(named)
}

// A call with these words, from a source of pieces of 8 bytes whose listed calls fail to a sink with room for `room` bytes.
pub fn call(
    alloc: Global,
    words: &[&str],
    text: Vec<u8>,
    fails: Vec<u64>,
    room: usize,
) -> Result<(u8, MemorySink), Fail> {
    let named = words_of(alloc, words)?;
    let mut input = MemorySource::new(text, 8, fails);
    let mut output = MemorySink::new(alloc, room, 3, Vec::new(alloc))?;
    let status = run(alloc, &named, &mut input, &mut output);
    Ok((status, output))
}

// A call with one word, from a source of great pieces.
pub fn call_at_once(alloc: Global, word: &str, text: Vec<u8>) -> Result<(u8, MemorySink), Fail> {
    let named = words_of(alloc, &[word])?;
    let mut input = MemorySource::new(text, 1_048_576, Vec::new(alloc));
    let mut output = MemorySink::new(alloc, 64, 8, Vec::new(alloc))?;
    let status = run(alloc, &named, &mut input, &mut output);
    Ok((status, output))
}

// Whether a call with one word on the text ends with the status and writes exactly this.
pub fn gives(
    alloc: Global,
    word: &str,
    text: Vec<u8>,
    status: u8,
    output: &[u8],
) -> Result<bool, Fail> {
    let (answer, sink) = call(alloc, &[word], text, Vec::new(alloc), 4096)?;
    Ok(answer == status && sink.bytes() == output)
}

#[test]
fn utilities_and_faults(rt: HostRuntime) -> Result<(), Fail> {
    let alloc = rt.alloc();
    let done = b"utility,X,6\nutility,Y,1\nend\n";
    let cases: [(&[u8], &[u8], &[u8], u8, &[u8]); 16] = [
        (b"", AUCTION, b"price,4,0\n", 0, done),
        (MARK, SPREAD, b"end,,,,\r\nprice,4,0,,\r\n", 0, done),
        (
            b"\xEF\xBB\xBF\xEF\xBB\xBF\r\n",
            SPREAD,
            b"end,,,,\r\nprice,4,0,,\r\n",
            0,
            done,
        ),
        (TWO_GOODS, MINGLED, b"price,4,0\n", 0, done),
        (b"", AUCTION, b"", 3, b"fault,11,end\n"),
        (b"", AUCTION, b"price,4,2000001\n", 3, b"fault,11,range\n"),
        (MARK, SPREAD, b"", 3, b"fault,10,end\n"),
        (b"", ONE_GOOD, b"", 3, b"fault,5,end\n"),
        (b"", ONE_GOOD, b"bid,P,0,5\n", 3, b"fault,5,weight\n"),
        (b"", ONE_GOOD, b"bid,P,1,1000001\n", 3, b"fault,5,range\n"),
        (b"", ONE_GOOD, b"bid,P,1,05\n", 3, b"fault,5,number\n"),
        (b"", ONE_GOOD, b"bid,P,1,-\n", 3, b"fault,5,nothing\n"),
        (b"", ONE_GOOD, b"bid,P,1\n", 3, b"fault,5,fields\n"),
        (b"", ONE_GOOD, b"bid,7P,1,5\n", 3, b"fault,5,name\n"),
        (b"", ONE_GOOD, b"sell,P,1,5\n", 3, b"fault,5,place\n"),
        (b"", ONE_GOOD, b"end\nend\n", 3, b"fault,6,place\n"),
    ];
    for (front, middle, tail, status, output) in cases {
        let text = text_of(alloc, front, middle, 1, tail)?;
        let (answer, sink) = call(alloc, &["utility"], text, Vec::new(alloc), 64)?;
        assert_eq!(rt; answer, status);
        assert_eq!(rt; sink.bytes(), output);
    }
    Ok(())
}

// What `solve` says of the first four rows of a text of one good where these come after them.
#[test]
fn faults(rt: HostRuntime) -> Result<(), Fail> {
    let alloc = rt.alloc();
    let cases: [(&[u8], &[u8]); 9] = [
        (b"", b"fault,5,end\n"),
        (b"bid,P,0,5\n", b"fault,5,weight\n"),
        (b"bid,P,1,1000001\n", b"fault,5,range\n"),
        (b"bid,P,1,05\n", b"fault,5,number\n"),
        (b"bid,P,1,-\n", b"fault,5,nothing\n"),
        (b"bid,P,1\n", b"fault,5,fields\n"),
        (b"bid,7P,1,5\n", b"fault,5,name\n"),
        (b"sell,P,1,5\n", b"fault,5,place\n"),
        (b"end\nend\n", b"fault,6,after\n"),
    ];
    for (tail, output) in cases {
        let text = text_of(alloc, ONE_GOOD, tail, 1, b"")?;
        assert!(rt; gives(alloc, "solve", text, 3, output)?);
    }
    let unended = text_of(alloc, MARK, SPREAD, 1, b"")?;
    assert!(rt; gives(alloc, "solve", unended, 3, b"fault,10,end\n")?);
    Ok(())
}

#[test]
fn the_first_limit_that_is_passed_is_printed(rt: HostRuntime) -> Result<(), Fail> {
    let alloc = rt.alloc();
    let cases: [(&str, &[u8], usize, &[u8], u8, &[u8]); 7] = [
        (
            "utility",
            b"bid,P,1,5\n",
            400,
            b"end\nprice,0\n",
            0,
            b"utility,P,2000\nend\n",
        ),
        (
            "utility",
            b"bid,P,1,5\n",
            401,
            b"end\nprice,0\n",
            4,
            b"limit,405,bids\n",
        ),
        (
            "utility",
            b"bid,P,-1,5\n",
            13,
            b"end\n",
            4,
            b"limit,17,negatives\n",
        ),
        (
            "solve",
            b"bid,P,1,5\n",
            400,
            b"end\n",
            0,
            b"outcome,1\ncleared\nprice,5\nshare,P,1,5\nreturn,0\ntight,P,A,3,1\nend\n",
        ),
        (
            "solve",
            b"bid,P,1,5\n",
            401,
            b"end\n",
            4,
            b"limit,405,bids\n",
        ),
        (
            "solve",
            b"bid,P,-1,5\n",
            12,
            b"end\n",
            1,
            b"outcome,1\nrefused,P,-,A,5,-12\nend\n",
        ),
        (
            "solve",
            b"bid,P,-1,5\n",
            13,
            b"end\n",
            4,
            b"limit,17,negatives\n",
        ),
    ];
    for (word, line, count, tail, status, output) in cases {
        let text = text_of(alloc, ONE_GOOD, line, count, tail)?;
        assert!(rt; gives(alloc, word, text, status, output)?);
    }
    Ok(())
}

// As many line feeds as a text may have bytes, and one more.
#[test]
fn bytes(rt: HostRuntime) -> Result<(), Fail> {
    let alloc = rt.alloc();
    let cases: [(&str, usize, u8, &[u8]); 4] = [
        ("utility", 16_777_216, 3, b"fault,1,end\n"),
        ("utility", 16_777_217, 4, b"limit,0,bytes\n"),
        ("solve", 16_777_216, 3, b"fault,1,end\n"),
        ("solve", 16_777_217, 4, b"limit,0,bytes\n"),
    ];
    for (word, count, status, output) in cases {
        let text = vec![in alloc; b'\n'; count]?;
        let (answer, sink) = call_at_once(alloc, word, text)?;
        assert_eq!(rt; answer, status);
        assert_eq!(rt; sink.bytes(), output);
    }
    Ok(())
}

#[test]
fn words_and_devices(rt: HostRuntime) -> Result<(), Fail> {
    let alloc = rt.alloc();
    let unknown: [&[&str]; 3] = [&["solve", "x"], &[], &["trial", "01"]];
    for words in unknown {
        let (answer, sink) = call(alloc, words, AUCTION.to_vec(alloc)?, vec![in alloc; 1]?, 64)?;
        assert_eq!(rt; answer, 2);
        assert_eq!(rt; sink.bytes(), b"error,words\n".as_slice());
    }
    let text = text_of(alloc, AUCTION, b"price,4,0\n", 1, b"")?;
    let (answer, sink) = call(alloc, &["utility"], text, vec![in alloc; 2]?, 64)?;
    assert_eq!(rt; answer, 5);
    assert_eq!(rt; sink.bytes(), b"error,read\n".as_slice());
    let text = text_of(alloc, AUCTION, b"price,4,0\n", 1, b"")?;
    let (answer, sink) = call(alloc, &["utility"], text, Vec::new(alloc), 10)?;
    assert_eq!(rt; answer, 6);
    assert_eq!(rt; sink.bytes(), b"utility,X,".as_slice());
    let (answer, sink) = call(
        alloc,
        &["solve"],
        AUCTION.to_vec(alloc)?,
        Vec::new(alloc),
        10,
    )?;
    assert_eq!(rt; answer, 6);
    assert_eq!(rt; sink.bytes(), b"outcome,1\n".as_slice());
    Ok(())
}

#[test]
fn validities(rt: HostRuntime) -> Result<(), Fail> {
    let alloc = rt.alloc();
    let cases: [(&[u8], &[u8], usize, &[u8], u8, &[u8]); 4] = [
        (AUCTION, b"", 0, b"", 0, b"valid,X,2\nvalid,Y,1\nend\n"),
        (
            ONE_GOOD,
            b"bid,P,-1,5\n",
            12,
            b"end\n",
            1,
            b"outcome,1\nrefused,P,-,A,5,-12\nend\n",
        ),
        (
            ONE_GOOD,
            b"bid,P,-1,5\n",
            13,
            b"end\n",
            4,
            b"limit,17,negatives\n",
        ),
        (ONE_GOOD, b"", 0, b"end\nend\n", 3, b"fault,6,after\n"),
    ];
    for (front, line, count, tail, status, output) in cases {
        let text = text_of(alloc, front, line, count, tail)?;
        let (answer, sink) = call(alloc, &["validate"], text, Vec::new(alloc), 64)?;
        assert_eq!(rt; answer, status);
        assert_eq!(rt; sink.bytes(), output);
    }
    Ok(())
}

// Whether X is refused for A and B at one price of both, at most `most`, with weight -1.
fn refused_at_one_price(alloc: Global, output: &[u8], most: i64) -> Result<bool, Fail> {
    for price in -20..=most {
        let text = format!(in alloc; "outcome,1\nrefused,X,A,B,{price},{price},-1\nend\n")?;
        if text.as_bytes() == output {
            return Ok(true);
        }
    }
    Ok(false)
}

// Whether the command refuses X so, of these bids for two goods.
fn is_refused(
    alloc: Global,
    word: &str,
    bids: &[u8],
    tail: &[u8],
    most: i64,
) -> Result<bool, Fail> {
    let text = text_of(alloc, TWO_GOODS, bids, 1, tail)?;
    let (answer, sink) = call(alloc, &[word], text, Vec::new(alloc), 64)?;
    Ok(answer == 1 && refused_at_one_price(alloc, sink.bytes(), most)?)
}

// Which facet is told is free: those of the first three texts have A and B at one price each, of at most 5 or -1; those
// of the last have nothing and A at a price of 5 for A, and at least 9 for the other two.
#[test]
fn refusals(rt: HostRuntime) -> Result<(), Fail> {
    let alloc = rt.alloc();
    let cases: [(&[u8], &[u8], i64); 3] = [
        (b"bid,X,1,6,-\nbid,X,1,-,6\nbid,X,-1,6,6\n", b"end\n", 5),
        (b"bid,X,1,0,-\nbid,X,1,-,0\nbid,X,-1,0,0\n", b"end\n", -1),
        (
            b"bid,X,1,6,-\nbid,X,1,-,6\nbid,X,-1,6,6\n",
            b"bid,Z,1,6,-\nbid,Z,1,-,6\nbid,Z,-1,6,6\nend\n",
            5,
        ),
    ];
    for (bids, tail, most) in cases {
        for word in ["validate", "prices", "trail", "solve"] {
            assert!(rt; is_refused(alloc, word, bids, tail, most)?);
        }
    }
    let text =
        b"mix,1\ngoods,A,B,C\nsupply,1,1,1\nreserve,0,0,0\nbid,X,1,5,2,2\nbid,X,-1,5,2,8\nbid,X,-1,5,8,2\nbid,X,1,-,8,2\nbid,X,1,-,2,8\nbid,X,1,6,9,-\nbid,X,1,6,-,9\nend\n";
    let (answer, sink) = call(
        alloc,
        &["validate"],
        text.to_vec(alloc)?,
        Vec::new(alloc),
        64,
    )?;
    assert_eq!(rt; answer, 1);
    assert!(rt; sink.bytes().starts_with(b"outcome,1\nrefused,X,-,A,5,"));
    assert!(rt; sink.bytes().ends_with(b",-1\nend\n"));
    Ok(())
}

#[test]
fn least_prices(rt: HostRuntime) -> Result<(), Fail> {
    let alloc = rt.alloc();
    let cases: [(&[u8], &[u8], &[u8]); 9] = [
        (
            ONE_GOOD,
            b"bid,P,1,1000000\nbid,Q,1,1000000\nend\n",
            b"price,1000000\nend\n",
        ),
        (
            b"mix,1\ngoods,A\nsupply,3\nreserve,2\n",
            b"bid,P,2,10\nbid,Q,2,7\nbid,S,1,5\nend\n",
            b"price,7\nend\n",
        ),
        (
            b"mix,1\ngoods,A\nsupply,4\nreserve,9\n",
            b"end\n",
            b"price,9\nend\n",
        ),
        (
            b"mix,1\ngoods,A\nsupply,0\nreserve,0\n",
            b"bid,P,1,5\nend\n",
            b"price,5\nend\n",
        ),
        (
            b"mix,1\ngoods,A\nsupply,2\nreserve,50\n",
            b"bid,P,1,10\nend\n",
            b"price,50\nend\n",
        ),
        (
            TWO_GOODS,
            b"bid,P,1,5,5\nbid,Q,1,5,5\nend\n",
            b"price,0,0\nend\n",
        ),
        (
            TWO_GOODS,
            b"bid,P,1,6,4\nbid,Q,1,6,4\nend\n",
            b"price,2,0\nend\n",
        ),
        (AUCTION, b"", b"price,4,0\nend\n"),
        (
            b"mix,1\ngoods,weak,strong\nsupply,30,20\nreserve,10,15\n",
            b"bid,alpha,10,40,50\nbid,alpha,10,25,30\nbid,beta,15,35,-\nbid,gamma,8,-,60\nbid,gamma,12,20,45\nend\n",
            b"price,25,35\nend\n",
        ),
    ];
    for (front, bids, output) in cases {
        let text = text_of(alloc, front, bids, 1, b"")?;
        let (answer, sink) = call(alloc, &["prices"], text, Vec::new(alloc), 64)?;
        assert_eq!(rt; answer, 0);
        assert_eq!(rt; sink.bytes(), output);
    }
    Ok(())
}
