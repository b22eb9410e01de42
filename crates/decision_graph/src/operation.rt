//! The operations that join two nodes.

/// An operation that joins the values of two nodes. Each is the same in either order.
#[derive(Clone, Copy, Debug, PartialEq, Eq)]
pub(crate) enum Operation {
    /// Both values are true.
    Both,
    /// One value or both are true.
    Either,
    /// The values differ.
    Differ,
}
