//! Tests that go over several crates at once: how often a member of a market is asked, tables worked out by
//! hand, and sessions that are drawn at random.
#![tactic(auto)]

#[cfg(test)]
mod counted;
#[cfg(test)]
mod sessions;
#[cfg(test)]
mod tables;
