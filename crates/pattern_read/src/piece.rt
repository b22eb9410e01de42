//! The pieces that the text of a pattern is cut into.

use waf_model::ByteSet;

/// How often an atom is to come.
#[derive(Clone, Copy)]
pub(crate) struct Times {
    pub(crate) least: u32,
    pub(crate) most: Option<u32>,
    /// What the atom's places are multiplied by.
    pub(crate) factor: u32,
}

/// A piece of the text of a pattern.
#[derive(Clone, Copy)]
pub(crate) enum Piece {
    /// One byte of the set.
    Set(ByteSet),
    /// `^`
    Start,
    /// `$`
    Final,
    /// `(` or `(?:`
    Open,
    /// `)`
    Close,
    /// `|`
    Bar,
    /// A count, with its lazy `?`.
    Count(Times),
}
