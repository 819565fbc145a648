// The caps of a text: those of its rows `cap`, which follow the bids.
ghost use Rattle.std.specs.Prelude.{◌≡◌, ◌≤◌, length, drop, Ok, Err, IfOk, IfErr, OnOk};
ghost use Rattle.mix_text.specs.Caps.{no_caps};
ghost use Rattle.mix_text.specs.Reading.{IsFromText, ReadsCaps, cap_row_of, caps_from, is_cap_row};

use crate::bid_limits::negatives;
use crate::bidders::Bidders;
use crate::caps::Caps;
use crate::faults::{Code, TextError};
use crate::formats::has_caps;
use crate::order_reading::read_bidder;
use crate::row::Row;
use crate::row_reading::{fault, number_at, row_begins, unless};
use std::alloc::Global;

/// Whether a row gives a bidder a cap.
pub(crate) fn gives_cap(format: u8, row: &Row) -> bool
    ensures { result ≡ is_cap_row format row.now.fields }
{
    has_caps(format) && row_begins(row, b"cap")
}

// No caps for these bidders.
fn without_caps(alloc: Global, bidders: &Bidders) -> Result<Caps, TextError>
    ensures read { IfOk result (λ caps. caps ≡ no_caps (length bidders.now)) }
    ensures wrong { IfErr result (λ e. e ≡ TextError.Memory) }
{
    Ok(Caps::none(alloc, bidders.count())?)
}

// Reads a row that gives a bidder a cap, and gives it. Where the row is wrong, the caps stay as they were.
#[tactic(auto, unfolding(crate::specs::Reading::cap_row_of))]
fn read_cap(bidders: &Bidders, row: &Row, caps: &mut Caps) -> Result<(), Code>
    requires { length caps.old ≡ length bidders.now }
    ensures read { OnOk result (cap_row_of bidders.now caps.old row.now.fields ≡ Ok caps.new) }
    ensures size { OnOk result (length caps.new ≡ length caps.old) }
    ensures wrong { IfErr result (λ code. cap_row_of bidders.now caps.old row.now.fields ≡ Err code) }
{
    unless(row.len() == 3, Code::Fields)?;
    let k = read_bidder(bidders, row.field(1))?;
    unless(caps.get(k).is_none(), Code::Repeated)?;
    let cap = number_at(row, 2, 0, 1_000_000)?;
    let (_, list) = bidders.bidder(k);
    unless(negatives(list.bids()) == 0, Code::Weight)?;
    caps.set(k, cap);
    Ok(())
}

/// Caps, and the place of the row from which the reading goes on.
#[derive(Drop)]
pub(crate) struct CapsRead {
    pub caps: Caps,
    pub after: usize,
}

/// Reads the caps that the rows from a place on give, up to the first that gives none.
pub(crate) fn read_caps(
    alloc: Global,
    format: u8,
    bidders: &Bidders,
    rows: &[Row],
    start: usize,
) -> Result<CapsRead, TextError>
    requires { start ≤ length rows.now }
    ensures read { IfOk result (λ capped. ReadsCaps format bidders.now rows.now start capped.caps capped.after) }
    ensures wrong { IfErr result (λ e. IsFromText (caps_from format bidders.now (no_caps (length bidders.now)) (drop start rows.now)) e) }
{
    let mut caps = without_caps(alloc, bidders)?;
    for k in start..rows.len() {
        let row = &rows[k];
        if !gives_cap(format, row) {
            return Ok(CapsRead { caps, after: k });
        }
        if let Err(code) = read_cap(bidders, row, &mut caps) {
            return Err(fault(row.number(), code));
        }
    }
    Ok(CapsRead {
        caps,
        after: rows.len(),
    })
}

#[cfg(test)]
mod tests {
    use crate::faults::{Code, Fault};
    use crate::order_reading::tests::fault_of;
    use crate::reading::read_auction;
    use std::test::Fail;

    #[test]
    fn refused_caps(rt: HostRuntime) {
        let cases: [(&[u8], u64, Code); 17] = [
            (
                b"mix,3\ngoods,A\nsupply,1\nreserve,0\ncap,P,1\nbid,P,1,5\nend\n",
                5,
                Code::Other,
            ),
            (
                b"mix,3\ngoods,A\nsupply,1\nreserve,0\nbid,P,1,5\ncap,R,1\nend\n",
                6,
                Code::Other,
            ),
            (
                b"mix,3\ngoods,A\nsupply,1\nreserve,0\nbid,P,1,5\ncap,2,1\nend\n",
                6,
                Code::Name,
            ),
            (
                b"mix,3\ngoods,A\nsupply,1\nreserve,0\nbid,P,1,5\ncap,P,1\ncap,P,x\nend\n",
                7,
                Code::Repeated,
            ),
            (
                b"mix,3\ngoods,A\nsupply,1\nreserve,0\nbid,P,2,5\nbid,P,-1,5\ncap,P,1\nend\n",
                7,
                Code::Weight,
            ),
            (
                b"mix,3\ngoods,A\nsupply,1\nreserve,0\nbid,P,2,5\nbid,P,-1,5\ncap,P,1000001\nend\n",
                7,
                Code::Range,
            ),
            (
                b"mix,3\ngoods,A\nsupply,1\nreserve,0\nbid,P,1,5\ncap,P,1000001\nend\n",
                6,
                Code::Range,
            ),
            (
                b"mix,3\ngoods,A\nsupply,1\nreserve,0\nbid,P,1,5\ncap,P,-1\nend\n",
                6,
                Code::Range,
            ),
            (
                b"mix,3\ngoods,A\nsupply,1\nreserve,0\nbid,P,1,5\ncap,P,x\nend\n",
                6,
                Code::Number,
            ),
            (
                b"mix,3\ngoods,A\nsupply,1\nreserve,0\nbid,P,1,5\ncap,P\nend\n",
                6,
                Code::Fields,
            ),
            (
                b"mix,3\ngoods,A\nsupply,1\nreserve,0\nbid,P,1,5\ncap,R,x,1\nend\n",
                6,
                Code::Fields,
            ),
            (
                b"mix,3\ngoods,A\nsupply,1\nreserve,0\nbid,P,1,5\norder,P\ncap,P,1\nend\n",
                7,
                Code::Place,
            ),
            (
                b"mix,3\ngoods,A\nsupply,1\nreserve,0\nbid,P,1,5\ncap,P,1\nbid,P,1,5\nend\n",
                7,
                Code::Place,
            ),
            (
                b"mix,1\ngoods,A\nsupply,1\nreserve,0\nbid,P,1,5\ncap,P,1\nend\n",
                6,
                Code::Place,
            ),
            (
                b"mix,2\ngoods,A\nsupply,1\nreserve,0\nbid,P,1,5\ncap,P,1\nend\n",
                6,
                Code::Place,
            ),
            (
                b"mix,2\ngoods,A\nsupply,1\nreserve,0\nbid,P,1,5\norder,P\ncap,P,1\nend\n",
                7,
                Code::Place,
            ),
            (
                b"mix,4\ngoods,A\nsupply,1\nreserve,0\nbid,P,1,5\ncap,P,1\nend\n",
                1,
                Code::Header,
            ),
        ];
        for (text, at, code) in cases {
            assert_eq!(rt; fault_of(rt.alloc(), text), Some(Fault { at, code }));
        }
    }

    #[test]
    fn read_caps(rt: HostRuntime) -> Result<(), Fail> {
        let cases: [(&[u8], &[Option<i64>]); 5] = [
            (
                b"mix,3\ngoods,A\nsupply,1\nreserve,0\nbid,P,1,5\nbid,Q,1,5\nend\n",
                &[None, None],
            ),
            (
                b"mix,3\ngoods,A\nsupply,1\nreserve,0\nbid,P,1,5\nbid,Q,1,5\ncap,Q,7\nend\n",
                &[None, Some(7)],
            ),
            (
                b"mix,3\ngoods,A\nsupply,1\nreserve,0\nbid,P,1,5\nbid,Q,1,5\ncap,Q,0\ncap,P,1000000\norder,Q,P\nend\n",
                &[Some(1_000_000), Some(0)],
            ),
            (
                b"mix,3\ngoods,A\nsupply,1\nreserve,0\nbid,P,2,5\nbid,P,-1,5\nbid,Q,1,5\ncap,Q,3\nend\n",
                &[None, Some(3)],
            ),
            (
                b"mix,2\ngoods,A\nsupply,1\nreserve,0\nbid,P,1,5\nbid,Q,1,5\norder,Q,P\nend\n",
                &[None, None],
            ),
        ];
        for (text, wanted) in cases {
            if text.len() > 1000 {
                return Err("a short text".into());
            }
            let (auction, _) = read_auction(rt.alloc(), text).ok().ok_or("an auction")?;
            if auction.count() != wanted.len() {
                return Err("as many bidders".into());
            }
            for (k, cap) in wanted.iter().enumerate() {
                assert_eq!(rt; auction.cap(k), *cap);
            }
        }
        Ok(())
    }
}
