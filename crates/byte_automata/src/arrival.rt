//! How a state was first reached.

/// The place in the order of first reach, and the byte, that first lead to a state.
#[derive(Clone, Copy, Debug)]
pub(crate) struct Arrival {
    pub(crate) from: u32,
    pub(crate) byte: u8,
}
