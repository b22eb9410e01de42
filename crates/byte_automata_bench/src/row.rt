//! One state of an automaton that is to be shrunk.

ghost use Rattle.std.specs.Prelude.{◌<◌, IfOk};
ghost use Rattle.std.specs.List.{All};
ghost use Rattle.byte_automata.specs.Row.{CoversBytes};

use crate::kind::Kind;
use crate::random::Random;
use byte_automata::Edge;
use std::alloc::Global;
use waf_base::Memory;

/// Whether the state accepts, and where four runs of bytes lead.
#[derive(Clone, Copy)]
pub(crate) struct Row {
    pub(crate) accepting: bool,
    pub(crate) controls: u32,
    pub(crate) signs: u32,
    pub(crate) letters: u32,
    pub(crate) others: u32,
}

/// The row of a state of an automaton of so many states.
pub(crate) fn row_of(kind: Kind, state: u32, count: u32, random: &mut Random) -> Row
    requires { state < count }
    ensures controls { result.controls < count }
    ensures signs { result.signs < count }
    ensures letters { result.letters < count }
    ensures others { result.others < count }
{
    match kind {
        Kind::Chain => chain_row(state, count),
        Kind::Random => random_row(count, random),
    }
}

fn chain_row(state: u32, count: u32) -> Row
    requires { state < count }
    ensures controls { result.controls < count }
    ensures signs { result.signs < count }
    ensures letters { result.letters < count }
    ensures others { result.others < count }
{
    let next = if state < count - 1 { state + 1 } else { state };
    Row {
        accepting: next == count - 1 && state < next,
        controls: next,
        signs: next,
        letters: next,
        others: next,
    }
}

fn random_row(count: u32, random: &mut Random) -> Row
    requires { 0 < count }
    ensures controls { result.controls < count }
    ensures signs { result.signs < count }
    ensures letters { result.letters < count }
    ensures others { result.others < count }
{
    Row {
        accepting: random.below(2) == 1,
        controls: random.below(count),
        signs: random.below(count),
        letters: random.below(count),
        others: random.below(count),
    }
}

/// The edges of the row.
pub(crate) fn edges_of_row(alloc: Global, row: Row, count: u32) -> Result<Vec<Edge>, Memory>
    requires controls { row.controls < count }
    requires signs { row.signs < count }
    requires letters { row.letters < count }
    requires others { row.others < count }
    ensures covers { IfOk result (λ edges. CoversBytes edges.items) }
    ensures targets { IfOk result (λ edges. All (λ edge. edge.to < count) edges.items) }
{
    let edges = [
        Edge {
            last: 31,
            to: row.controls,
        },
        Edge {
            last: b'@',
            to: row.signs,
        },
        Edge {
            last: b'z',
            to: row.letters,
        },
        Edge {
            last: 255,
            to: row.others,
        },
    ];
    Ok(Vec::from_slice(alloc, &edges)?)
}
