//! Making nodes.

ghost use Rattle.std.specs.Prelude.{◌≡◌, ◌+◌, ◌<◌, ◌∷◌, ◌↔◌, Err, IfOk, IfSome, IfNone, OnOk, OnErr};
ghost use Rattle.decision_graph.specs.Grows.{Grows, StopsFull, MakesIfLacking};
ghost use Rattle.decision_graph.specs.Nodes.{IsId, IsNodeOf, HasNode, first_variable, test_of, next_id};
ghost use Rattle.decision_graph.specs.Reduced.{MayFollow, IsReduced};
ghost use Rattle.decision_graph.specs.Signs.{Same};
ghost use Rattle.waf_base.specs.declared.refusal.Stop.TheVariants as stops;

use crate::branch::Branch;
use crate::graph::Graph;
use crate::node_id::NodeId;
use waf_base::{Meter, Stop};

impl Graph {
    /// The node that goes on at `hi` where the variable's sign is true, and at `lo` where it is false. Where no
    /// node has that function, one is made and counted. Full comes exactly where one is to be made and the meter
    /// is full. After a refusal nothing has changed.
    pub fn node(
        &mut self,
        var: u32,
        hi: NodeId,
        lo: NodeId,
        meter: &mut Meter,
    ) -> Result<NodeId, Stop>
        requires ids { IsId self.old hi × IsId self.old lo }
        requires variables { (var < first_variable self.old hi) × (var < first_variable self.old lo) }
        ensures ok { IfOk result (IsNodeOf self.new (test_of self.old var hi lo)) }
        ensures made { OnOk result (MakesIfLacking self.old (test_of self.old var hi lo) meter.old meter.new) }
        ensures full { result ≡ Err stops.Full ↔
            ((HasNode self.old (test_of self.old var hi lo) → ⊥) × (meter.old.made ≡ meter.old.limit)) }
        ensures err { OnErr result ((self.new ≡ self.old) × (meter.new ≡ meter.old)) }
        ensures grows { Grows (Same (test_of self.old var hi lo)) self.old self.new meter.old meter.new }
        ensures stops { result ≡ Err stops.Full →
            StopsFull (Same (test_of self.old var hi lo)) self.old self.new meter.old meter.new }
    {
        if let Some(id) = self.find(var, hi, lo) {
            return Ok(id);
        }
        let mut counted = *meter;
        counted.make()?;
        let id = self.add(var, hi, lo)?;
        *meter = counted;
        Ok(id)
    }

    /// The node with the function of the test, where there is one.
    fn find(&self, var: u32, hi: NodeId, lo: NodeId) -> Option<NodeId>
        requires ids { IsId self.now hi × IsId self.now lo }
        requires variables { (var < first_variable self.now hi) × (var < first_variable self.now lo) }
        ensures found { IfSome result (IsNodeOf self.now (test_of self.now var hi lo)) }
        ensures absent { IfNone result (MayFollow self.now (record { var = var; hi = hi; lo = lo })) }
        ensures reduced { IsReduced self.now }
    {
        let ids = &self.ids;
        if hi == lo {
            return Some(hi);
        }
        ids.get(&Branch { var, hi, lo }).copied()
    }

    /// Adds a node that the graph does not have.
    fn add(&mut self, var: u32, hi: NodeId, lo: NodeId) -> Result<NodeId, Stop>
        requires { MayFollow self.old (record { var = var; hi = hi; lo = lo }) }
        ensures id { IfOk result (λ id. id ≡ next_id self.old) }
        ensures ok { OnOk result (self.new ≡ record { var = var; hi = hi; lo = lo } ∷ self.old) }
        ensures memory { OnErr result (self.new ≡ self.old) }
        ensures stop { result ≡ Err stops.Full → ⊥ }
    {
        let Ok(number) = u32::try_from(self.nodes.len() + 2) else {
            return Err(Stop::Memory);
        };
        let id = NodeId::of(number);
        self.nodes.reserve(1)?;
        self.ids.insert(Branch { var, hi, lo }, id)?;
        self.nodes.push(Branch { var, hi, lo })?;
        Ok(id)
    }
}
