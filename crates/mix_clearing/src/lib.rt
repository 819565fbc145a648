//! What follows of clearing a market, for any bidders. It has no code but calls that do nothing, each the bearer of a theorem.
#![tactic(auto)]

pub mod theorems;
