//! A state of one automaton beside a state of another.

/// A state of each of two automata.
#[derive(Clone, Copy, Debug, PartialEq, Eq, Hash)]
pub struct StatePair {
    /// The state of the first automaton.
    pub left: u32,
    /// The state of the second automaton.
    pub right: u32,
}
