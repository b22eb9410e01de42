//! The name of a node of a graph.

ghost use Rattle.std.specs.Prelude.{◌≡◌};

use std::marker::Model;

/// The name of a node of a graph: 0 is the constant no, 1 the constant yes, and the nodes that test a variable
/// follow from 2 in the order in which they were made.
#[derive(Clone, Copy, Debug, PartialEq, Eq, Hash)]
pub struct NodeId {
    number: u32,
}

impl Model for NodeId {
    ghost use Rattle.std.specs.Prelude.{ℕ};

    ghost Value = { ℕ };

    ghost view = { λ id. id.number };

    ghost inverse = { λ number. record { number = number } };
}

impl NodeId {
    /// The constant no.
    pub(crate) const fn no() -> NodeId
        ensures { result ≡ 0 }
    {
        NodeId { number: 0 }
    }

    /// The constant yes.
    pub(crate) const fn yes() -> NodeId
        ensures { result ≡ 1 }
    {
        NodeId { number: 1 }
    }

    /// The node of that number.
    pub(crate) fn of(number: u32) -> NodeId
        ensures { result ≡ number }
    {
        NodeId { number }
    }

    /// The node's number.
    pub(crate) fn number(self) -> u32
        ensures { result ≡ self }
    {
        self.number
    }
}
