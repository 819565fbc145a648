// What sessions print on devices in memory, and with which status; what they come to is tested where sessions are.
use crate::calls::{gives, text_of};
use std::test::Fail;

// One unit for sale; one bidder for it at up to 5, and one at up to 3: rows 1 to 7.
const TWO_BIDDERS: &[u8] = b"mix,1\ngoods,A\nsupply,1\nreserve,0\nbid,P,1,5\nbid,Q,1,3\nend\n";

// What Q, who is left alone, gets, and nothing where no outcome is asked for.
#[test]
fn a_session_prints_its_outcomes(rt: HostRuntime) -> Result<(), Fail> {
    let alloc = rt.alloc();
    let cases: [(&[u8], &[u8]); 2] = [
        (
            b"drop,P\nclear\nclose\n",
            b"outcome,1\ncleared\nprice,0\nshare,Q,1,0\nreturn,0\ntight,Q,A,2,0\nend\n",
        ),
        (b"close\n", b""),
    ];
    for (rows, output) in cases {
        let text = text_of(alloc, TWO_BIDDERS, rows, 1, b"")?;
        assert!(rt; gives(alloc, "session", text, 0, output)?);
    }
    Ok(())
}

// The first row that is wrong, of the auction or after it, is all that is printed.
#[test]
fn a_fault_of_a_session_is_all_that_is_printed(rt: HostRuntime) -> Result<(), Fail> {
    let alloc = rt.alloc();
    let cases: [(&[u8], &[u8], &[u8]); 3] = [
        (b"mix,1\ngoods,A,A\n", b"x\n", b"fault,2,repeated\n"),
        (TWO_BIDDERS, b"clear\ndrop,S\n", b"fault,9,other\n"),
        (TWO_BIDDERS, b"clear\n", b"fault,9,end\n"),
    ];
    for (auction, rows, output) in cases {
        let text = text_of(alloc, auction, rows, 1, b"")?;
        assert!(rt; gives(alloc, "session", text, 3, output)?);
    }
    Ok(())
}

// So is the first row past a limit.
#[test]
fn a_limit_of_a_session_is_all_that_is_printed(rt: HostRuntime) -> Result<(), Fail> {
    let alloc = rt.alloc();
    let text = text_of(alloc, TWO_BIDDERS, b"clear\n", 65, b"close\n")?;
    assert!(rt; gives(alloc, "session", text, 4, b"limit,72,clears\n")?);
    Ok(())
}
