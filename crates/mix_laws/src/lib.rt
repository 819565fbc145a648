//! How clearing prices answer to changes, and what bidders and the seller can rely on at them, for any bidders. It has no code but
//! calls that do nothing, each the bearer of a theorem.
#![tactic(auto)]

pub mod theorems;
