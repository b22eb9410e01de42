//! The capacity of a web ACL, in web ACL capacity units.
#![tactic(auto)]

mod bases;
mod look_up;
mod rules;
mod statements;
mod sums;

pub use rules::capacity;
