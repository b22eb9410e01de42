//! The operations on nodes.

ghost use Rattle.std.specs.Prelude.{◌≡◌, ◌≤◌, min, max, Err, IfOk};
ghost use Rattle.decision_graph.specs.Grows.{Grows, StopsFull};
ghost use Rattle.decision_graph.specs.Joined.{both_of, either_of, negation_of, joined_of};
ghost use Rattle.decision_graph.specs.Nodes.{IsId, IsNodeOf, HasNode, first_variable};
ghost use Rattle.decision_graph.specs.Reduced.{IsReduced};
ghost use Rattle.decision_graph.specs.Signs.{Becomes};
ghost use Rattle.decision_graph.specs.Split.{IsSplit};
ghost use Rattle.waf_base.specs.declared.refusal.Stop.TheVariants as stops;

use crate::graph::Graph;
use crate::node_id::NodeId;
use crate::operation::Operation;
use waf_base::{Meter, Stop};

impl Graph {
    /// The conjunction of two nodes.
    pub fn both(&mut self, a: NodeId, b: NodeId, meter: &mut Meter) -> Result<NodeId, Stop>
        requires { IsId self.old a × IsId self.old b }
        ensures ok { IfOk result (IsNodeOf self.new (both_of self.old a b)) }
        ensures grows { Grows (Becomes (both_of self.old a b)) self.old self.new meter.old meter.new }
        ensures stops { result ≡ Err stops.Full →
            StopsFull (Becomes (both_of self.old a b)) self.old self.new meter.old meter.new }
        ensures there { HasNode self.old (both_of self.old a b) → meter.new.made ≡ meter.old.made }
    {
        self.apply(Operation::Both, a, b, meter)
    }

    /// The disjunction of two nodes.
    pub fn either(&mut self, a: NodeId, b: NodeId, meter: &mut Meter) -> Result<NodeId, Stop>
        requires { IsId self.old a × IsId self.old b }
        ensures ok { IfOk result (IsNodeOf self.new (either_of self.old a b)) }
        ensures grows { Grows (Becomes (either_of self.old a b)) self.old self.new meter.old meter.new }
        ensures stops { result ≡ Err stops.Full →
            StopsFull (Becomes (either_of self.old a b)) self.old self.new meter.old meter.new }
        ensures there { HasNode self.old (either_of self.old a b) → meter.new.made ≡ meter.old.made }
    {
        self.apply(Operation::Either, a, b, meter)
    }

    /// The negation of a node.
    pub fn negate(&mut self, a: NodeId, meter: &mut Meter) -> Result<NodeId, Stop>
        requires { IsId self.old a }
        ensures ok { IfOk result (IsNodeOf self.new (negation_of self.old a)) }
        ensures grows { Grows (Becomes (negation_of self.old a)) self.old self.new meter.old meter.new }
        ensures stops { result ≡ Err stops.Full →
            StopsFull (Becomes (negation_of self.old a)) self.old self.new meter.old meter.new }
        ensures there { HasNode self.old (negation_of self.old a) → meter.new.made ≡ meter.old.made }
    {
        self.apply(Operation::Differ, a, NodeId::yes(), meter)
    }

    /// The two nodes joined by the operation.
    fn apply(
        &mut self,
        operation: Operation,
        a: NodeId,
        b: NodeId,
        meter: &mut Meter,
    ) -> Result<NodeId, Stop>
        requires { IsId self.old a × IsId self.old b }
        ensures ok { IfOk result (IsNodeOf self.new (joined_of operation self.old a b)) }
        ensures grows { Grows (Becomes (joined_of operation self.old a b)) self.old self.new meter.old meter.new }
        ensures stops { result ≡ Err stops.Full →
            StopsFull (Becomes (joined_of operation self.old a b)) self.old self.new meter.old meter.new }
        ensures reduced { IsReduced self.old }
    {
        if let Some(id) = self.known(operation, a, b) {
            return Ok(id);
        }
        let var = self.common_variable(a, b);
        let (a_hi, a_lo) = self.split(a, var);
        let (b_hi, b_lo) = self.split(b, var);
        let hi = self.apply(operation, a_hi, b_hi, meter)?;
        let lo = self.apply(operation, a_lo, b_lo, meter)?;
        let id = self.node(var, hi, lo, meter)?;
        self.finish(operation, a, b, id)?;
        Ok(id)
    }

    /// The variable that is tested first by either of the two nodes, of which one is no constant.
    fn common_variable(&self, a: NodeId, b: NodeId) -> u32
        requires { IsId self.now a × IsId self.now b × (2 ≤ max a b) }
        ensures { result ≡ min (first_variable self.now a) (first_variable self.now b) }
    {
        match (self.branch(a), self.branch(b)) {
            (Some(x), Some(y)) => x.var.min(y.var),
            (Some(x), None) => x.var,
            (None, Some(y)) => y.var,
            (None, None) => unreachable!(),
        }
    }

    /// Where the node goes on once the variable has the sign true, and once it has the sign false. It tests no
    /// lesser variable.
    fn split(&self, a: NodeId, var: u32) -> (NodeId, NodeId)
        requires { IsId self.now a × (var ≤ first_variable self.now a) }
        ensures { IsSplit self.now var a result.0 result.1 }
    {
        match self.branch(a) {
            Some(branch) if branch.var == var => (branch.hi, branch.lo),
            _ => (a, a),
        }
    }
}
