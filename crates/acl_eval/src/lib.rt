//! The evaluation of a web ACL on a request, rule by rule.
#![tactic(auto)]

mod case;
mod ends;
mod evaluation;
mod laws;
mod prepared;
mod ready_group;
mod ready_rule;
mod ready_top;
mod trying;
mod walking;
mod writing;

pub use evaluation::evaluate;
pub use laws::one_outcome;
pub use match_eval::Sets;
pub use prepared::Prepared;
pub use writing::{write_capacity, write_decision, write_outcome};
