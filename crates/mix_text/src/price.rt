// The one row of prices that may stand after an auction.
ghost use Rattle.std.specs.Prelude.{◌≡◌, ◌≤◌, Ok, Err, IfOk, IfErr};
ghost use Rattle.mix_text.specs.Reading.{numbered_as, prices_after, prices_of};

use crate::faults::{Code, Fault};
use crate::rest::Rest;
use crate::row::Row;
use crate::row_reading::read_numbers;
use mix_num::Prices;

// Reads the row of prices.
fn read_price_row(row: &Row, goods: usize) -> Result<Prices, Fault>
    requires { goods ≤ 8 }
    ensures read { IfOk result (λ prices. numbered_as row.now.number (prices_of goods row.now.fields) ≡ Ok prices.items) }
    ensures wrong { IfErr result (λ fault. numbered_as row.now.number (prices_of goods row.now.fields) ≡ Err fault) }
{
    match read_numbers(row, b"price", goods, -2_000_000, 2_000_000) {
        Ok(prices) => Ok(prices),
        Err(code) => Err(Fault {
            at: row.number(),
            code,
        }),
    }
}

/// Reads the prices of the one row that stands after an auction over `goods` goods: `price`, and a number from
/// -2,000,000 to 2,000,000 for each good.
///
/// The fault is the first in order: that of the first row; `After` at a second row; `End` where no row is left.
pub fn read_price(rest: &Rest, goods: usize) -> Result<Prices, Fault>
    requires { (1 ≤ goods) × (goods ≤ 8) }
    ensures read { IfOk result (λ prices. prices_after goods rest.now ≡ Ok prices.items) }
    ensures wrong { IfErr result (λ fault. prices_after goods rest.now ≡ Err fault) }
{
    match rest.rows() {
        [] => Err(Fault {
            at: rest.next_number(),
            code: Code::End,
        }),
        [row] => read_price_row(row, goods),
        [row, second, ..] => {
            read_price_row(row, goods)?;
            Err(Fault {
                at: second.number(),
                code: Code::After,
            })
        }
    }
}
