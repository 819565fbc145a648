//! Which changes make an auction scarcer: more is wanted, less is offered, or reserves are higher. It has no code but calls that do
//! nothing, each the bearer of a theorem.
#![tactic(auto)]

pub mod theorems;
