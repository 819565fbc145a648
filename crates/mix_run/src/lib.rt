//! The commands on product-mix auctions: from words and a text to the bytes of a reply.
#![tactic(auto)]

mod alone;
mod command;
mod device;
mod in_memory;
mod reasons;
mod refusal;
mod reply;
mod rows;
mod words;

pub use device::run;
pub use in_memory::reply_to;
pub use reply::Reply;
pub use words::{Command, Task};
