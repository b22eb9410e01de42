//! The reader of patterns: the text of a regular expression of the subset, to its pattern.
#![tactic(auto)]

mod byte_class;
mod class;
mod counts;
mod group;
mod lex;
mod members;
mod piece;
mod read;
mod singles;
mod state;

pub use byte_class::set_of_a_class;
pub use read::{one_spelling, pattern_is_spelled, read_pattern, spelled_is_ordered};
