//! Writes JSON texts.
#![tactic(auto)]

mod writing;

pub use writing::{push_separator, push_string, push_text};
