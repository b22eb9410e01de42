//! The answers to opaque questions: which there are, the answer to a key, reading and writing.
#![tactic(auto)]

mod answers_text;
mod group_list;
mod keys;
mod laws;
mod look_up;
mod reading;
mod statement_keys;
mod statement_list;
mod text_set;
mod token_keys;
mod token_list;
mod truths;

pub use answers_text::write_answers;
pub use keys::{Keys, keys_of};
pub use laws::read_answers_are_lawful;
pub use look_up::{group_answer, statement_answer, token_answer};
pub use reading::read_answers;
