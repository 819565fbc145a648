// The tie order of a text: that of its row `order`, or else that of first appearance.
ghost use Rattle.std.specs.Prelude.{◌≡◌, ◌<◌, ◌≤◌, ◌∷◌, [], List, ℕ, false, length, slice_index_or, drop, Ok, IfOk, IfErr, OnOk};
ghost use Rattle.mix_num.specs.Orders.{places as places_of};
ghost use Rattle.mix_text.specs.Orders.{AreMarks};
ghost use Rattle.mix_text.specs.Reading.{IsFromText, ReadsOrder, bidder_of, field_at, is_order_row, order_from, order_row_of, placed, served_after};

use crate::bidders::Bidders;
use crate::faults::{Code, TextError};
use crate::formats::has_order;
use crate::order::Order;
use crate::row::Row;
use crate::row_reading::{fault, row_begins, unless};
use crate::spelling::read_name;
use std::alloc::Global;

/// Whether a row states the tie order.
pub(crate) fn states_order(format: u8, row: &Row) -> bool
    ensures { result ≡ is_order_row format row.now.fields }
{
    has_order(format) && row_begins(row, b"order")
}

/// The place of the bidder whom a field names.
pub(crate) fn read_bidder(bidders: &Bidders, field: &[u8]) -> Result<usize, Code>
    ensures place { result ≡ bidder_of bidders.now field.now }
    ensures within { IfOk result (λ k. k < length bidders.now) }
{
    let name = read_name(field)?;
    match bidders.find(&name) {
        Some(k) => Ok(k),
        None => Err(Code::Other),
    }
}

// No mark for any of so many bidders.
fn no_marks(alloc: Global, count: usize) -> Result<Vec<bool>, TextError>
    ensures marks { IfOk result (λ marks. AreMarks count [] marks.items) }
    ensures wrong { IfErr result (λ e. e ≡ TextError.Memory) }
{
    match vec![in alloc; false; count] {
        Ok(marks) => Ok(marks),
        Err(_) => Err(TextError::Memory),
    }
}

// Reads the bidder at a place of the row, who has no mark yet, marks it and adds it to the order.
fn serve(
    bidders: &Bidders,
    row: &Row,
    k: usize,
    marks: &mut [bool],
    order: &mut Order,
) -> Result<(), TextError>
    requires field { k < length row.now.fields }
    requires marks { AreMarks (length bidders.now) order.old marks.old }
    ensures marks { OnOk result (AreMarks (length bidders.now) order.new marks.new) }
    ensures read { OnOk result ((rest : List (List ℕ)) → served_after bidders.now order.old (field_at row.now.fields k ∷ rest) ≡ served_after bidders.now order.new rest) }
    ensures wrong { IfErr result (λ e. (rest : List (List ℕ)) → IsFromText (placed row.now.number (served_after bidders.now order.old (field_at row.now.fields k ∷ rest))) e) }
{
    let place = match read_bidder(bidders, row.field(k)) {
        Ok(place) => place,
        Err(code) => return Err(fault(row.number(), code)),
    };
    if marks[place] {
        return Err(fault(row.number(), Code::Repeated));
    }
    marks[place] = true;
    order.push(place)?;
    Ok(())
}

// Reads the bidders in the order in which the fields after the first name them, none of them twice.
fn read_served(alloc: Global, bidders: &Bidders, row: &Row) -> Result<Order, TextError>
    ensures read { IfOk result (λ order. served_after bidders.now [] (drop 1 row.now.fields) ≡ Ok order) }
    ensures wrong { IfErr result (λ e. IsFromText (placed row.now.number (served_after bidders.now [] (drop 1 row.now.fields))) e) }
{
    let mut marks = no_marks(alloc, bidders.count())?;
    let mut order = Order::new(alloc);
    for k in 1..row.len() {
        serve(bidders, row, k, &mut marks, &mut order)?;
    }
    Ok(order)
}

// Reads a row that states the tie order.
#[tactic(auto, unfolding(crate::specs::Reading::order_row_of))]
fn read_order_row(alloc: Global, bidders: &Bidders, row: &Row) -> Result<Order, TextError>
    ensures read { IfOk result (λ order. order_row_of bidders.now row.now.fields ≡ Ok order) }
    ensures wrong { IfErr result (λ e. IsFromText (placed row.now.number (order_row_of bidders.now row.now.fields)) e) }
{
    if row.len() == 0 || row.len() - 1 != bidders.count() {
        return Err(fault(row.number(), Code::Fields));
    }
    read_served(alloc, bidders, row)
}

// The bidders in order of first appearance.
fn first_order(alloc: Global, bidders: &Bidders) -> Result<Order, TextError>
    ensures order { IfOk result (λ order. order ≡ places_of (length bidders.now)) }
    ensures wrong { IfErr result (λ e. e ≡ TextError.Memory) }
{
    Ok(Order::of_appearance(alloc, bidders.count())?)
}

/// A tie order, and the place of the row from which the reading goes on.
#[derive(Drop)]
pub(crate) struct Served {
    pub order: Order,
    pub after: usize,
}

/// Reads the tie order that the row at a place states, or else takes that of first appearance.
#[tactic(auto, unfolding(crate::specs::Reading::order_from))]
pub(crate) fn read_order(
    alloc: Global,
    format: u8,
    bidders: &Bidders,
    rows: &[Row],
    k: usize,
) -> Result<Served, TextError>
    requires { k ≤ length rows.now }
    ensures read { IfOk result (λ served. ReadsOrder format bidders.now rows.now k served.order served.after) }
    ensures wrong { IfErr result (λ e. IsFromText (order_from format bidders.now (drop k rows.now)) e) }
{
    if k < rows.len() && states_order(format, &rows[k]) {
        return Ok(Served {
            order: read_order_row(alloc, bidders, &rows[k])?,
            after: k + 1,
        });
    }
    Ok(Served {
        order: first_order(alloc, bidders)?,
        after: k,
    })
}

#[cfg(test)]
pub(crate) mod tests {
    use crate::faults::{Code, Fault, TextError};
    use crate::reading::read_auction;
    use std::alloc::Global;
    use std::test::Fail;

    /// The fault of a text, if it has one.
    pub(crate) fn fault_of(alloc: Global, text: &[u8]) -> Option<Fault> {
        if text.len() > 1000 {
            return None;
        }
        match read_auction(alloc, text) {
            Err(TextError::Fault(fault)) => Some(fault),
            _ => None,
        }
    }

    #[test]
    fn refused_orders(rt: HostRuntime) {
        let cases: [(&[u8], u64, Code); 9] = [
            (
                b"mix,2\ngoods,A\nsupply,1\nreserve,0\nbid,P,1,5\nbid,Q,1,5\norder,Q\nend\n",
                7,
                Code::Fields,
            ),
            (
                b"mix,2\ngoods,A\nsupply,1\nreserve,0\nbid,P,1,5\nbid,Q,1,5\norder,Q,Q\nend\n",
                7,
                Code::Repeated,
            ),
            (
                b"mix,2\ngoods,A\nsupply,1\nreserve,0\nbid,P,1,5\nbid,Q,1,5\norder,Q,R\nend\n",
                7,
                Code::Other,
            ),
            (
                b"mix,2\ngoods,A\nsupply,1\nreserve,0\nbid,P,1,5\nbid,Q,1,5\norder,Q,2\nend\n",
                7,
                Code::Name,
            ),
            (
                b"mix,2\ngoods,A\nsupply,1\nreserve,0\nbid,P,1,5\nbid,Q,1,5\norder,Q,P\norder,Q,P\nend\n",
                8,
                Code::Place,
            ),
            (
                b"mix,2\ngoods,A\nsupply,1\nreserve,0\nbid,P,1,5\norder,P\nbid,P,1,5\nend\n",
                7,
                Code::Place,
            ),
            (
                b"mix,1\ngoods,A\nsupply,1\nreserve,0\nbid,P,1,5\norder,P\nend\n",
                6,
                Code::Place,
            ),
            (
                b"mix,2\ngoods,A\nsupply,1\nreserve,0\nbid,P,1,5\norder,P\n",
                7,
                Code::End,
            ),
            (
                b"mix,2\ngoods,A\nsupply,1\nreserve,0\nbid,P,1,5\norder,P\nend,P\n",
                7,
                Code::Fields,
            ),
        ];
        for (text, at, code) in cases {
            assert_eq!(rt; fault_of(rt.alloc(), text), Some(Fault { at, code }));
        }
    }

    #[test]
    fn stated_orders(rt: HostRuntime) -> Result<(), Fail> {
        let cases: [(&[u8], &[usize]); 3] = [
            (
                b"mix,2\ngoods,A\nsupply,1\nreserve,0\nbid,P,1,5\nbid,Q,1,5\norder,Q,P\nend\n",
                &[1, 0],
            ),
            (
                b"mix,2\ngoods,A\nsupply,1\nreserve,0\nbid,P,1,5\nbid,Q,1,5\nend\n",
                &[0, 1],
            ),
            (b"mix,2\ngoods,A\nsupply,1\nreserve,0\norder\nend\n", &[]),
        ];
        for (text, wanted) in cases {
            if text.len() > 1000 {
                return Err("a short text".into());
            }
            let (auction, _) = read_auction(rt.alloc(), text).ok().ok_or("an auction")?;
            assert_eq!(rt; auction.order.places(), wanted);
        }
        Ok(())
    }
}
