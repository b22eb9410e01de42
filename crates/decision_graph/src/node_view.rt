//! What a node is.

use crate::node_id::NodeId;

/// What a node is: a constant, or a test of a variable with the nodes where it goes on.
#[derive(Clone, Copy, Debug, PartialEq, Eq)]
pub enum NodeView {
    Yes,
    No,
    /// It goes on at `hi` where the variable's sign is true, and at `lo` where it is false.
    Test { var: u32, hi: NodeId, lo: NodeId },
}
