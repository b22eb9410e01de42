//! Regular expressions of the subset that is evaluated.

use waf_base::{Boxed, Items};

/// A regular expression.
#[derive(Debug, Drop)]
pub enum Pattern {
    /// The empty text.
    Empty,
    /// One byte of the set.
    Set(ByteSet),
    /// The start of the text.
    Start,
    /// The very end of the text.
    End,
    /// The end of the text, or the place before one final line feed.
    Final,
    /// One after another.
    Seq(Items<Pattern>),
    /// One of these.
    Alt(Items<Pattern>),
    /// At least `least` times, and at most `most` times where that is given.
    Repeat {
        inner: Boxed<Pattern>,
        least: u32,
        most: Option<u32>,
    },
}

/// A set of bytes: bit `b` of `low` for the byte `b` below 128, and bit `b - 128` of `high` for the others.
#[derive(Clone, Copy, Debug, PartialEq, Eq)]
pub struct ByteSet {
    pub low: u128,
    pub high: u128,
}
