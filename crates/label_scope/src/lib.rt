//! Labels: how they are qualified by a namespace, which a key means, sets of them, and those by which the answers of
//! managed rule groups are told apart.
#![tactic(auto)]

mod key_match;
mod label_keys;
mod label_set;
mod laws;
mod managed_labels;
mod qualified;
mod texts;

pub use key_match::matches;
pub use label_set::Labels;
pub use laws::vocabulary_stands_for_labels;
pub use managed_labels::vocabulary;
pub use qualified::qualify;
