//! Tests of automata over bytes, through the public calls.
#![tactic(auto)]

#[cfg(test)]
mod tests;
#[cfg(test)]
mod walks;
