//! Members of the market: any convex function of the prices with its laws, and what follows for all of them.
#![tactic(auto)]

mod convex;
pub mod laws;
mod pair;

pub use convex::Convex;
pub use pair::Pair;
