//! How a run ends.

/// The exit status of a run: 0 done, or two revisions are equal; 1 different; 2 usage; 3 refused; 6 read fault; 7 write
/// fault; 8 want of memory; 9 too long.
#[derive(Clone, Copy, Debug, PartialEq, Eq)]
pub struct Status {
    pub code: u8,
}
