//! A shared reduced decision graph.

ghost use Rattle.std.specs.Prelude.{◌≡◌, [], true, false, IsTrue, ◌↔◌};
ghost use Rattle.decision_graph.specs.Nodes.{IsId, IsNodeOf, first_variable, no_variable};

mod apply;
mod known;
mod make;
mod read;

use crate::branch::Branch;
use crate::node_id::NodeId;
use crate::operands::Operands;
use indexmap::IndexMap;
use std::alloc::Global;
use std::marker::Model;

/// A shared reduced decision graph. Each node's children were made before it, a child's variable is greater than
/// its parent's, no node has two equal children, and no two nodes are the same, so each function has one node.
/// Contracts see the graph as the list of its nodes that test a variable, the newest first.
#[derive(Drop)]
pub struct Graph {
    /// The nodes that test a variable, the oldest first.
    nodes: Vec<Branch>,
    /// The number of each node.
    ids: IndexMap<Branch, NodeId>,
    /// Finished conjunctions.
    both: IndexMap<Operands, NodeId>,
    /// Finished disjunctions.
    either: IndexMap<Operands, NodeId>,
    /// Finished differences.
    differ: IndexMap<Operands, NodeId>,
}

impl Model for Graph {
    ghost use Rattle.std.specs.Prelude.{List, reverse};
    ghost use Rattle.decision_graph.specs.declared.branch.Branch.{Branch};

    ghost Value = { List Branch };

    ghost use Rattle.decision_graph.specs.Stored.{IsGraph};

    ghost view = { λ graph. reverse graph.nodes.items };

    ghost invariant = { IsGraph };
}

impl Graph {
    /// The graph of the two constants alone.
    pub fn new(alloc: Global) -> Graph
        ensures { result ≡ [] }
    {
        Graph {
            nodes: Vec::new(alloc),
            ids: IndexMap::new(alloc),
            both: IndexMap::new(alloc),
            either: IndexMap::new(alloc),
            differ: IndexMap::new(alloc),
        }
    }

    /// The constant yes.
    pub fn yes(&self) -> NodeId
        ensures id { result ≡ 1 }
        ensures value { IsNodeOf self.now (λ _. true) result }
        ensures variable { first_variable self.now result ≡ no_variable }
    {
        NodeId::yes()
    }

    /// The constant no.
    pub fn no(&self) -> NodeId
        ensures id { result ≡ 0 }
        ensures value { IsNodeOf self.now (λ _. false) result }
        ensures variable { first_variable self.now result ≡ no_variable }
    {
        NodeId::no()
    }

    /// Whether a node has that number in this graph.
    pub fn contains(&self, a: NodeId) -> bool
        ensures { IsTrue result ↔ IsId self.now a }
    {
        (a.number() as usize) < self.nodes.len() + 2
    }
}
