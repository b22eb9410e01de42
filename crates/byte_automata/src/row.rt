//! The edges of one state.

ghost use Rattle.std.specs.Prelude.{◌≡◌, ◌<◌, ◌≤◌, ℕ, length, slice_index, IfOk};
ghost use Rattle.std.specs.List.{All};
ghost use Rattle.byte_automata.specs.Row.{CoversBytes, IsEdgeOf, target, renamed, joined};

use crate::edge::Edge;
use std::alloc::Global;
use waf_base::Memory;

/// The place of the edge along which the byte leads: the first whose last byte is no less. It is found by halving.
fn place_of(edges: &[Edge], byte: u8) -> usize
    requires { CoversBytes edges.now }
    ensures { IsEdgeOf edges.now byte result }
{
    edges.partition_point(|edge| edge.last < byte)
}

/// The state that the byte leads to.
pub(crate) fn target_of(edges: &[Edge], byte: u8) -> u32
    requires { CoversBytes edges.now }
    ensures { result ≡ target edges.now byte }
{
    edges[place_of(edges, byte)].to
}

/// The last byte of the run in which the byte stands: each byte from it up to there leads where it leads.
pub(crate) fn run_end_of(edges: &[Edge], byte: u8) -> u8
    requires { CoversBytes edges.now }
    ensures within { byte ≤ result }
    ensures alike { (other : ℕ) → byte ≤ other → other ≤ result → target edges.now other ≡ target edges.now byte }
{
    edges[place_of(edges, byte)].last
}

/// The edges with each target renamed, where neighbours that then lead to one state are one edge.
pub(crate) fn renamed_row(alloc: Global, edges: &[Edge], names: &[u32]) -> Result<Vec<Edge>, Memory>
    requires { All (λ edge. edge.to < length names.now) edges.now }
    ensures { IfOk result (λ row. row.items ≡ joined (renamed (λ state. slice_index names.now state) edges.now)) }
{
    let mut row = Vec::new(alloc);
    for i in 0..edges.len() {
        let Edge { last, to } = edges[i];
        let to = names[to as usize];
        if i + 1 == edges.len() || names[edges[i + 1].to as usize] != to {
            row.push(Edge { last, to })?;
        }
    }
    Ok(row)
}

/// The edges, where neighbours that lead to one state are one edge.
pub(crate) fn joined_row(alloc: Global, edges: &[Edge]) -> Result<Vec<Edge>, Memory>
    ensures { IfOk result (λ row. row.items ≡ joined edges.now) }
{
    let mut row = Vec::new(alloc);
    for i in 0..edges.len() {
        let edge = edges[i];
        if i + 1 == edges.len() || edges[i + 1].to != edge.to {
            row.push(edge)?;
        }
    }
    Ok(row)
}
