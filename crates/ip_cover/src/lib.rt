//! Lists of address ranges, merged so that an address is looked up by a binary search.
#![tactic(auto)]

mod cover;
mod look_up;
mod merging;
mod narrowing;
mod range_spans;
mod span;

pub use cover::IpCover;
pub use span::{Span4, Span6};
