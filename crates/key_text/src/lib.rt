//! The keys of questions that are answered from outside: exact texts, so that two revisions that ask the same question
//! share its answer.
#![tactic(auto)]

mod float;
mod key;
mod member;
mod patterns;
mod quotation;

pub use float::{holds_float, search_holds_float, unscoped_holds_float};
pub use key::{rate_key, search_key, statement_key, unscoped_key};
pub use patterns::patterns_key;
