//! Whether a statement of a web ACL holds of a request.
#![tactic(auto)]

mod address_test;
mod comparing;
mod field_test;
mod forwarded_value;
mod holding;
mod label_test;
mod pattern_search;
mod prepared;
mod prepared_set;
mod preparing;
mod range_cover;
mod ready;
mod sets;
mod standing;
mod text_test;
mod trimming;
mod words;

pub use ready::{Ready, holds};
pub use sets::Sets;
