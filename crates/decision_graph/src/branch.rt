//! A node that tests a variable.

use crate::node_id::NodeId;

/// A node that tests a variable: it goes on at `hi` where the variable's sign is true, and at `lo` where it is
/// false.
#[derive(Clone, Copy, Debug, PartialEq, Eq, Hash)]
pub struct Branch {
    pub var: u32,
    pub hi: NodeId,
    pub lo: NodeId,
}
