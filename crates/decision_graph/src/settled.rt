//! Operations whose result a constant or equal nodes settle.

ghost use Rattle.std.specs.Prelude.{◌≤◌, IfSome, IfNone};
ghost use Rattle.decision_graph.specs.Joined.{Settles};
ghost use Rattle.decision_graph.specs.declared.operation.Operation.TheVariants as operations;

use crate::node_id::NodeId;
use crate::operation::Operation;

/// The result of the operation, where a constant or equal nodes settle it.
pub(crate) fn settled(operation: Operation, low: NodeId, high: NodeId) -> Option<NodeId>
    requires { low ≤ high }
    ensures settled { IfSome result (Settles operation low high) }
    ensures open { IfNone result (2 ≤ high) }
{
    match operation {
        Operation::Both => settled_both(low, high),
        Operation::Either => settled_either(low, high),
        Operation::Differ => settled_differ(low, high),
    }
}

/// The conjunction: yes leaves the other, no wins, and equal nodes are their own.
fn settled_both(low: NodeId, high: NodeId) -> Option<NodeId>
    requires { low ≤ high }
    ensures settled { IfSome result (Settles operations.Both low high) }
    ensures open { IfNone result (2 ≤ high) }
{
    if low == NodeId::yes() {
        return Some(high);
    }
    if low == NodeId::no() || low == high {
        return Some(low);
    }
    None
}

/// The disjunction: no leaves the other, yes wins, and equal nodes are their own.
fn settled_either(low: NodeId, high: NodeId) -> Option<NodeId>
    requires { low ≤ high }
    ensures settled { IfSome result (Settles operations.Either low high) }
    ensures open { IfNone result (2 ≤ high) }
{
    if low == NodeId::no() {
        return Some(high);
    }
    if low == NodeId::yes() || low == high {
        return Some(low);
    }
    None
}

/// The difference: no leaves the other, and equal nodes do not differ.
fn settled_differ(low: NodeId, high: NodeId) -> Option<NodeId>
    requires { low ≤ high }
    ensures settled { IfSome result (Settles operations.Differ low high) }
    ensures open { IfNone result (2 ≤ high) }
{
    if low == NodeId::no() {
        return Some(high);
    }
    if low == high {
        return Some(NodeId::no());
    }
    None
}
