//! Shared reduced decision graphs: functions of the signs of numbered variables, each with one node of the graph.
#![tactic(auto)]

mod branch;
mod graph;
mod node_id;
mod node_view;
mod operands;
mod operation;
mod settled;

pub use branch::Branch;
pub use graph::Graph;
pub use node_id::NodeId;
pub use node_view::NodeView;
