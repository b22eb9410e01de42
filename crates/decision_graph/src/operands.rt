//! The two nodes that an operation joins.

ghost use Rattle.std.specs.Prelude.{◌≡◌, min, max};

use crate::node_id::NodeId;

/// The two nodes that an operation joins, the lower number first, so that both orders are one key.
#[derive(Clone, Copy, Debug, PartialEq, Eq, Hash)]
pub(crate) struct Operands {
    pub(crate) low: NodeId,
    pub(crate) high: NodeId,
}

impl Operands {
    /// The operands in order.
    pub(crate) fn of(a: NodeId, b: NodeId) -> Operands
        ensures low { result.low ≡ min a b }
        ensures high { result.high ≡ max a b }
    {
        if a.number() <= b.number() {
            Operands { low: a, high: b }
        } else {
            Operands { low: b, high: a }
        }
    }
}
