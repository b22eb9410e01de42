//! The kinds of automata that are shrunk.

/// Where the edges of an automaton lead.
#[derive(Clone, Copy)]
pub(crate) enum Kind {
    /// Each state leads to the next, and the last but one accepts, so no two states accept the same texts.
    Chain,
    /// Each run of bytes leads to any state, and any state accepts.
    Random,
}

impl Kind {
    /// The kind of a name.
    pub(crate) fn of(name: &str) -> Option<Kind> {
        match name {
            "chain" => Some(Kind::Chain),
            "random" => Some(Kind::Random),
            _ => None,
        }
    }
}
