//! Finite automata over bytes: what is asked about texts is answered on them.
#![tactic(auto)]

mod arrival;
mod builder;
mod classes;
mod dfa;
mod edge;
mod explored;
mod flip;
mod groups;
mod key;
mod kind;
mod laws;
mod lists;
mod marking;
mod meet;
mod number_list;
mod numbering;
mod pairs;
mod parts;
mod redirected;
mod renumbered;
mod row;
mod row_step;
mod shortest;
mod shrink;
mod sizes;
mod sources;
mod state;
mod state_pair;
mod walk;
mod walking;

pub use builder::Builder;
pub use dfa::Dfa;
pub use edge::Edge;
pub use key::same_key;
pub use laws::{same_on_texts, states_are_residuals, texts_count_places};
pub use number_list::NumberList;
pub use shrink::same_least;
pub use state::State;
pub use state_pair::StatePair;
pub use walk::Walk;
pub use walking::walked;
