//! How the prices of an auction answer to changes, and what can be relied on in an answer. It has no code but calls that do nothing,
//! each the bearer of a theorem.
#![tactic(auto)]

pub mod theorems;
