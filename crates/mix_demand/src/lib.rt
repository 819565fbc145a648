//! Tables of members, and the test whether a bundle is demanded.
#![tactic(auto)]

mod demand;
mod rho;

pub use demand::{demanded_where_fits, is_demanded};
pub use rho::{Rho, rho_of, sum_into};
