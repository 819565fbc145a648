//! Tests of the program's top call over devices in memory, apart from `mix_run`, which they would make slow to prove: which text
//! is printed with which status, for each command, at the sizes that a text may have, and where a device fails.
#![tactic(auto)]

#[cfg(test)]
mod calls;
