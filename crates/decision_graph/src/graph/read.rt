//! Reading a graph.

ghost use Rattle.std.specs.Prelude.{◌≡◌, ◌<◌, ◌≤◌, IfSome, IfNone};
ghost use Rattle.decision_graph.specs.Nodes.{IsId, value};
ghost use Rattle.decision_graph.specs.Reduced.{IsReduced, IsCanonical, IsOrdered, IsTest};
ghost use Rattle.decision_graph.specs.Signs.{signs_of};
ghost use Rattle.decision_graph.specs.Viewed.{IsViewed};

use crate::branch::Branch;
use crate::graph::Graph;
use crate::node_id::NodeId;
use crate::node_view::NodeView;

impl Graph {
    /// The test at that node, or nothing where it is a constant.
    pub(crate) fn branch(&self, a: NodeId) -> Option<Branch>
        requires { IsId self.now a }
        ensures test { IfSome result (IsTest self.now a) }
        ensures constant { IfNone result (a < 2) }
        ensures reduced { IsReduced self.now }
    {
        let nodes = &self.nodes;
        let number = a.number();
        if number < 2 {
            return None;
        }
        Some(nodes[number as usize - 2])
    }

    /// What the node is.
    pub fn view(&self, a: NodeId) -> NodeView
        requires { IsId self.now a }
        ensures view { IsViewed self.now a result }
        ensures reduced { IsReduced self.now }
        ensures canonical { IsCanonical self.now }
        ensures ordered { IsOrdered self.now }
    {
        match self.branch(a) {
            Some(branch) => NodeView::Test {
                var: branch.var,
                hi: branch.hi,
                lo: branch.lo,
            },
            None if a.number() == 1 => NodeView::Yes,
            None => NodeView::No,
        }
    }

    /// The node's value where the variables have these signs. A variable past their end has the sign false.
    pub fn value(&self, a: NodeId, signs: &[bool]) -> bool
        requires { IsId self.now a }
        ensures { result ≡ value self.now a (signs_of signs.now) }
    {
        let mut at = a;
        while let Some(branch) = self.branch(at) {
            let sign = signs.get(branch.var as usize).copied().unwrap_or(false);
            at = if sign { branch.hi } else { branch.lo };
        }
        at == NodeId::yes()
    }
}
