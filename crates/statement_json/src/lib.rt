//! Reads statements: what a rule tests, and what is asked from outside.
#![tactic(auto)]

mod actions;
mod block;
mod detectors;
mod encoding;
mod field;
mod field_kind;
mod field_name;
mod filter;
mod group_use;
mod listed;
mod managed_use;
mod matching;
mod opaque;
mod pairing;
mod pattern_sets;
mod rate;
mod references;
mod scope_down;
mod search;
mod statement;
mod statement_kind;
mod target;
mod token;
mod top;
mod transforms;

pub use actions::action;
pub use block::block_code;
pub use encoding::Encoding;
pub use matching::{arn, regex};
pub use pairing::beside;
pub use top::{TopStatement, rule_statement, top_statement};
