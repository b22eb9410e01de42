//! The search for a pattern in a text: a set of places in the pattern is moved over the text byte by byte.
#![tactic(auto)]

mod advance;
mod builder;
mod byte_sets;
mod finding;
mod matcher;
mod opening;
mod place;
mod place_set;
mod trace;

pub use finding::{Search, hits};
