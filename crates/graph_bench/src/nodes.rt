//! The operations on nodes of a graph that may be another's.

use decision_graph::{Graph, NodeId};
use waf_base::{Meter, Stop};

/// The node that is true where the variable's sign is.
pub(crate) fn variable(graph: &mut Graph, var: u32, meter: &mut Meter) -> Result<NodeId, Stop> {
    graph.node(var, graph.yes(), graph.no(), meter)
}

/// The conjunction, or want of memory where a node is not this graph's.
pub(crate) fn both(
    graph: &mut Graph,
    a: NodeId,
    b: NodeId,
    meter: &mut Meter,
) -> Result<NodeId, Stop> {
    if graph.contains(a) && graph.contains(b) {
        graph.both(a, b, meter)
    } else {
        Err(Stop::Memory)
    }
}

/// The disjunction, as the conjunction.
pub(crate) fn either(
    graph: &mut Graph,
    a: NodeId,
    b: NodeId,
    meter: &mut Meter,
) -> Result<NodeId, Stop> {
    if graph.contains(a) && graph.contains(b) {
        graph.either(a, b, meter)
    } else {
        Err(Stop::Memory)
    }
}

/// The negation, as the conjunction.
pub(crate) fn negate(graph: &mut Graph, a: NodeId, meter: &mut Meter) -> Result<NodeId, Stop> {
    if graph.contains(a) {
        graph.negate(a, meter)
    } else {
        Err(Stop::Memory)
    }
}
