//! The results of operations that are known.

ghost use Rattle.std.specs.Prelude.{◌≡◌, ◌≤◌, max, Err, IfSome, IfNone};
ghost use Rattle.decision_graph.specs.Joined.{joined_of};
ghost use Rattle.decision_graph.specs.Nodes.{IsId, IsNodeOf};
ghost use Rattle.decision_graph.specs.Reduced.{IsReduced};
ghost use Rattle.waf_base.specs.declared.refusal.Stop.TheVariants as stops;

use crate::graph::Graph;
use crate::node_id::NodeId;
use crate::operands::Operands;
use crate::operation::Operation;
use crate::settled::settled;
use waf_base::Stop;

impl Graph {
    /// The result of the operation, where a constant or equal nodes settle it, or it is finished.
    pub(crate) fn known(&self, operation: Operation, a: NodeId, b: NodeId) -> Option<NodeId>
        requires { IsId self.now a × IsId self.now b }
        ensures known { IfSome result (IsNodeOf self.now (joined_of operation self.now a b)) }
        ensures tests { IfNone result (2 ≤ max a b) }
        ensures reduced { IsReduced self.now }
    {
        let _ = &self.both;
        let operands = Operands::of(a, b);
        if let Some(id) = settled(operation, operands.low, operands.high) {
            return Some(id);
        }
        match operation {
            Operation::Both => self.both.get(&operands).copied(),
            Operation::Either => self.either.get(&operands).copied(),
            Operation::Differ => self.differ.get(&operands).copied(),
        }
    }

    /// Keeps the result of the operation, so that it is known.
    pub(crate) fn finish(
        &mut self,
        operation: Operation,
        a: NodeId,
        b: NodeId,
        id: NodeId,
    ) -> Result<(), Stop>
        requires ids { IsId self.old a × IsId self.old b }
        requires result { IsNodeOf self.old (joined_of operation self.old a b) id }
        ensures same { self.new ≡ self.old }
        ensures stop { result ≡ Err stops.Full → ⊥ }
    {
        match operation {
            Operation::Both => {
                self.both.insert(Operands::of(a, b), id)?;
            }
            Operation::Either => {
                self.either.insert(Operands::of(a, b), id)?;
            }
            Operation::Differ => {
                self.differ.insert(Operands::of(a, b), id)?;
            }
        }
        Ok(())
    }
}
