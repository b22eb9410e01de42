//! Two revisions of a web ACL with rules of two variables each.

use crate::nodes::{both, either, negate, variable};
use decision_graph::{Graph, NodeId};
use waf_base::{Meter, Stop};

/// The nodes of what one revision decides: under any signs just one of them is true.
#[derive(Clone, Copy)]
struct Revision {
    blocked: NodeId,
    allowed: NodeId,
}

/// Where the rule matches: every third where one of its two variables is true, the others where both are.
fn matches(graph: &mut Graph, rule: u32, meter: &mut Meter) -> Result<NodeId, Stop> {
    let first = variable(graph, rule.saturating_mul(2), meter)?;
    let second = variable(graph, rule.saturating_mul(2).saturating_add(1), meter)?;
    if rule % 3 == 0 {
        either(graph, first, second, meter)
    } else {
        both(graph, first, second, meter)
    }
}

/// The revision of so many rules, of which every other blocks and the others allow. The one at `changed` does the
/// opposite. What no rule matches is allowed.
fn build_revision(
    graph: &mut Graph,
    rules: u32,
    changed: u32,
    meter: &mut Meter,
) -> Result<Revision, Stop> {
    let mut live = graph.yes();
    let mut blocked = graph.no();
    let mut allowed = graph.no();
    for rule in 0..rules {
        let matches = matches(graph, rule, meter)?;
        let fires = both(graph, live, matches, meter)?;
        if (rule % 2 == 0) == (rule != changed) {
            blocked = either(graph, blocked, fires, meter)?;
        } else {
            allowed = either(graph, allowed, fires, meter)?;
        }
        let other = negate(graph, matches, meter)?;
        live = both(graph, live, other, meter)?;
    }
    allowed = either(graph, allowed, live, meter)?;
    Ok(Revision { blocked, allowed })
}

/// Where the first is true and the second is not.
fn only_first(
    graph: &mut Graph,
    first: NodeId,
    second: NodeId,
    meter: &mut Meter,
) -> Result<NodeId, Stop> {
    let other = negate(graph, second, meter)?;
    both(graph, first, other, meter)
}

/// Where two revisions of so many rules decide otherwise: in the new one the rule in the middle does the opposite.
pub(crate) fn difference_of_revisions(
    graph: &mut Graph,
    rules: u32,
    meter: &mut Meter,
) -> Result<NodeId, Stop> {
    let old = build_revision(graph, rules, rules, meter)?;
    let new = build_revision(graph, rules, rules / 2, meter)?;
    let blocked = only_first(graph, old.blocked, new.blocked, meter)?;
    let allowed = only_first(graph, old.allowed, new.allowed, meter)?;
    either(graph, blocked, allowed, meter)
}
