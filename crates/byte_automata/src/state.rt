//! One state of an automaton.

use crate::edge::Edge;
use sqlite_items::Items;

/// A state: whether a text that ends there is accepted, and its edges in ascending order.
#[derive(Debug, Drop)]
pub struct State {
    /// A text that ends here is accepted.
    pub accepting: bool,
    /// The edges, in ascending order of their bytes.
    pub edges: Items<Edge>,
}
