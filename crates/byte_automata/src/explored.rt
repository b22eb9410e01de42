//! The states of an automaton in the order in which texts first reach them.

ghost use Rattle.std.specs.Prelude.{◌≡◌, ◌+◌, ◌<◌, ◌≤◌, length, IfOk, OnOk};
ghost use Rattle.byte_automata.specs.FirstReach.{IsExplored};

use crate::arrival::Arrival;
use crate::dfa::Dfa;
use crate::numbering::Numbering;
use std::alloc::Global;
use waf_base::Memory;

/// The states that texts reach, in the order of first reach: the start, and then each with its arrival.
#[derive(Drop)]
pub(crate) struct Explored {
    pub(crate) order: Numbering<u32>,
    pub(crate) arrivals: Vec<Arrival>,
}

/// The states of the automaton in the order of first reach.
pub(crate) fn explore(alloc: Global, dfa: &Dfa) -> Result<Explored, Memory>
    ensures { IfOk result (λ explored. IsExplored dfa.now explored.order explored.arrivals.items (length explored.order) 0) }
{
    let mut order = Numbering::new(alloc);
    let mut arrivals = Vec::new(alloc);
    order.number(dfa.start())?;
    let mut place = 0;
    'places: while place < order.len() {
        explore_state(dfa, place as u32, &mut order, &mut arrivals)?;
        place += 1;
    }
    Ok(Explored { order, arrivals })
}

/// Goes on with the bytes of one place.
fn explore_state(
    dfa: &Dfa,
    place: u32,
    order: &mut Numbering<u32>,
    arrivals: &mut Vec<Arrival>,
) -> Result<(), Memory>
    requires place { place < length order.old }
    requires explored { IsExplored dfa.now order.old arrivals.old.items place 0 }
    ensures ok { OnOk result (IsExplored dfa.now order.new arrivals.new.items (place + 1) 0) }
    ensures grown { length order.old ≤ length order.new }
{
    let state = order.as_slice()[place as usize];
    let _ = dfa.states();
    let edges = dfa.edges_of(state);
    let mut low = 0;
    for edge in edges {
        let known = order.len();
        let number = order.number(edge.to)?;
        if number as usize == known {
            arrivals.push(Arrival {
                from: place,
                byte: low as u8,
            })?;
        }
        low = u32::from(edge.last) + 1;
    }
    Ok(())
}
