//! What the states of one group have in common.

/// The class of the states of a group, and the number of the row of edges that they have, seen through the classes.
#[derive(Clone, Copy, Debug, PartialEq, Eq, Hash)]
pub(crate) struct Kind {
    pub(crate) class: u32,
    pub(crate) row: u32,
}
