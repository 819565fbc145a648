// What is handed over to room of different sizes. The replies were worked out by hand.
use super::*;
use std::test::Fail;

// One unit, for which two bid: the lower bid is the price.
const AUCTION: &[u8] = b"mix,1\ngoods,A\nsupply,1\nreserve,0\nbid,X,1,5\nbid,Y,1,3\nend\n";

const PRICES: &[u8] = b"price,3\nend\n";

const UNKNOWN: &[u8] = b"error,words\n";

// Whether a call with so much room, all of it dots, gives the status and hands over the reply: where it fits it stands before dots,
// and else there are dots alone.
fn hands_over(
    alloc: Global,
    words: &[u8],
    text: &[u8],
    room: usize,
    status: u32,
    reply: &[u8],
) -> bool {
    let mut dots = [b'.'; 16];
    let mut wanted = [b'.'; 16];
    let (Some(out), Some(whole)) = (dots.get_mut(..room), wanted.get_mut(..room)) else {
        return false;
    };
    if let Some(front) = whole.get_mut(..reply.len()) {
        front.copy_from_slice(reply);
    }
    let mut needed = 99;
    let given = product_mix_run(alloc, words, text, out, &mut needed);
    given == status && needed == reply.len() && *out == *whole
}

#[test]
fn a_reply_stands_at_the_front_where_it_fits(rt: HostRuntime) -> Result<(), Fail> {
    for room in 0..=16 {
        assert!(rt;
            hands_over(rt.alloc(), b"prices", AUCTION, room, 0, PRICES),
            "{room}"
        );
    }
    Ok(())
}

#[test]
fn words_stand_in_one_text(rt: HostRuntime) -> Result<(), Fail> {
    let cases: [(&[u8], &[u8], u32, &[u8]); 10] = [
        (b"prices", b"", 3, b"fault,1,end\n"),
        (b"", AUCTION, 2, UNKNOWN),
        (b"prices ", AUCTION, 2, UNKNOWN),
        (b" prices", AUCTION, 2, UNKNOWN),
        (b"prices 1", AUCTION, 2, UNKNOWN),
        (b"\xFFprices", AUCTION, 2, UNKNOWN),
        (b"trial", b"", 2, UNKNOWN),
        (b"trial  1", b"", 2, UNKNOWN),
        (b"trial 1 2", b"", 2, UNKNOWN),
        (b"trial 4294967296", b"", 2, UNKNOWN),
    ];
    for (words, text, status, reply) in cases {
        assert!(rt;
            hands_over(rt.alloc(), words, text, 16, status, reply),
            "{words:?}"
        );
    }
    Ok(())
}

#[test]
fn a_trial_auction_reads_no_text(rt: HostRuntime) -> Result<(), Fail> {
    let head = b"trial,4294967295\nbidders,40\nbids,1280\nnegatives,160\nprice,";
    let mut out = [b'.'; 256];
    let mut needed = 0;
    let words = b"trial 4294967295";
    let status = product_mix_run(rt.alloc(), words, AUCTION, &mut out, &mut needed);
    assert_eq!(rt; status, 0);
    assert!(rt; out.starts_with(head));
    Ok(())
}

#[test]
fn each_part_has_a_version(rt: HostRuntime) -> Result<(), Fail> {
    for (part, version) in [(0, 1), (1, 3), (2, 2), (3, 0), (4_294_967_295, 0)] {
        assert_eq!(rt; product_mix_version(part), version);
    }
    Ok(())
}
