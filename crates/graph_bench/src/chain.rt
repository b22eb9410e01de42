//! Chains of variables, which are as deep as a graph of so many variables can be.

use crate::nodes::{both, negate, variable};
use decision_graph::{Graph, NodeId};
use waf_base::{Meter, Stop};

/// The negation of the conjunction of so many variables.
pub(crate) fn chain(graph: &mut Graph, depth: u32, meter: &mut Meter) -> Result<NodeId, Stop> {
    let mut all = graph.yes();
    for var in (0..depth).rev() {
        let next = variable(graph, var, meter)?;
        all = both(graph, next, all, meter)?;
    }
    negate(graph, all, meter)
}
