//! The text of an auction: its rows, what their fields spell, and rows that are printed.
#![tactic(auto)]

mod auction;
mod bid_limits;
mod bidders;
mod cap_reading;
mod caps;
mod changes;
#[cfg(test)]
mod changes_tests;
mod copies;
mod faults;
mod formats;
mod names;
mod order;
mod order_reading;
mod page;
mod price;
mod reading;
mod rest;
mod row;
mod row_list;
mod row_reading;
mod shared_rows;
mod spelling;

pub use auction::Auction;
pub use bidders::Bidders;
pub use caps::Caps;
pub use copies::upgrade;
pub use faults::{Code, Fault, Limit, TextError, What};
pub use formats::{has_caps, has_order};
pub use names::Names;
pub use order::Order;
pub use page::Page;
pub use price::read_price;
pub use reading::read_auction;
pub use rest::{Rest, no_rest};
pub use row::Row;
pub use row_list::{RowList, rows};
pub use row_reading::{read_bid, read_numbers, row_begins, unless};
pub use shared_rows::{add_amounts, add_end, add_order};
pub use spelling::{Name, read_name, read_number};
