//! One edge of a row that is read from its front.

/// The edge that goes on from the part of a row that has a number.
#[derive(Clone, Copy, Debug, PartialEq, Eq, Hash)]
pub(crate) struct RowStep {
    pub(crate) from: u32,
    pub(crate) last: u8,
    pub(crate) to: u32,
}
