//! Text transformations of AWS WAF: what each makes of a text before the text is tested.
#![tactic(auto)]

mod applied;
mod comments;
mod encodings;
mod entities;
mod hex_digits;
mod laws;
mod paths;
mod single_bytes;
mod spaces;

pub use applied::{apply, apply_all};
pub use laws::kept_next;
