//! The replay of a log of requests through two revisions of a web ACL: which of its requests they decide otherwise.
#![tactic(auto)]

mod first_line;
mod impact;
mod laws;
mod line_request;
mod replay_fault;
mod replaying;
mod revisions;

pub use impact::{Change, Impact};
pub use laws::{alike_change_nothing, one_impact};
pub use replay_fault::ReplayFault;
pub use replaying::replay;
