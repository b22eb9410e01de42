//! Laws of the definitions of `waf_model`, each the contract of a function without a body.
#![tactic(auto)]

mod decisions;
mod enders;
mod firing;
mod labels;
mod limits;
mod outcome;
mod places;
mod statements;
mod written;

pub use decisions::{decisions_in_order, stands_before};
pub use enders::enders_tell_steps;
pub use firing::firing_is_decided;
pub use labels::agreement_is_decided;
pub use limits::{header_names_are_exact, nothing_is_oversized};
pub use outcome::{one_decision, outcome_is_computed};
pub use places::places_follow_steps;
pub use statements::{statements_are_decided, tests_are_decided};
pub use written::written_at_places;
