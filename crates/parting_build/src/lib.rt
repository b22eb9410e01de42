//! The review of two revisions of a web ACL: that they decide alike, or a request that parts them.
#![tactic(auto)]

mod candidate;
mod named;
mod plain;
mod revisions;
mod verdict;
mod whole_path;

pub use plain::{plain_form, plain_form_is_path_rules};
pub use revisions::review;
pub use verdict::{Parting, Reason, Review, ReviewStop, Side};
