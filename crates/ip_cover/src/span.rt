//! Addresses that follow one another.

/// The IPv4 addresses from the first to the last, both among them, as numbers whose most significant byte is the first.
#[derive(Clone, Copy, Debug, PartialEq, Eq)]
pub struct Span4 {
    pub first: u32,
    pub last: u32,
}

/// The IPv6 addresses from the first to the last, both among them, as numbers whose most significant byte is the first.
#[derive(Clone, Copy, Debug, PartialEq, Eq)]
pub struct Span6 {
    pub first: u128,
    pub last: u128,
}
