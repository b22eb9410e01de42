//! One run of bytes that leads to one state.

/// The edge of a run of bytes: from the byte after the last one of the edge before it (from 0 for the first edge) up
/// to `last`, each leads to the state `to`.
#[derive(Clone, Copy, Debug, PartialEq, Eq)]
pub struct Edge {
    /// The last byte of the run.
    pub last: u8,
    /// The number of the state that the run leads to.
    pub to: u32,
}
