//! An automaton with its states numbered in the order of first reach.

ghost use Rattle.std.specs.Prelude.{◌≡◌, ◌<◌, ◌^◌, [], ◌∷◌, ◌++◌, length, IfOk, OnOk};
ghost use Rattle.std.specs.List.{All};
ghost use Rattle.byte_automata.specs.Least.{IsNumbered, Renumbers};
ghost use Rattle.byte_automata.specs.Members.{AreDifferent};
ghost use Rattle.byte_automata.specs.Places.{IsPlaced};

use crate::dfa::Dfa;
use crate::explored::explore;
use crate::row::renamed_row;
use crate::state::State;
use sqlite_items::Items;
use std::alloc::Global;
use waf_base::Memory;

/// The automaton of the states that texts reach, numbered in the order of first reach, with neighbouring edges to one
/// state joined.
pub(crate) fn renumbered(alloc: Global, dfa: &Dfa) -> Result<Dfa, Memory>
    ensures renumbers { IfOk result (Renumbers dfa.now) }
    ensures numbered { IfOk result IsNumbered }
{
    let explored = explore(alloc, dfa)?;
    let order = explored.order.as_slice();
    let places = places_of(alloc, order, dfa.states() as usize)?;
    let mut states = Vec::new(alloc);
    'order: for i in 0..order.len() {
        let state = order[i];
        let row = renamed_row(alloc, dfa.edges_of(state), places.as_slice())?;
        push_state(
            &mut states,
            State {
                accepting: dfa.accepting(state),
                edges: Items::from_vec(row),
            },
        )?;
    }
    Ok(Dfa::of(0, states))
}

/// Adds the state at the end. It fails only for want of memory.
pub(crate) fn push_state(states: &mut Vec<State>, state: State) -> Result<(), Memory>
    ensures { OnOk result (states.new.items ≡ states.old.items ++ state ∷ []) }
{
    states.push(state)?;
    Ok(())
}

/// The table of the places of different numbers, each below the count.
fn places_of(alloc: Global, order: &[u32], count: usize) -> Result<Vec<u32>, Memory>
    requires different { AreDifferent order.now }
    requires below { All (λ state. state < count) order.now }
    requires some { 0 < length order.now }
    requires few { length order.now < 2 ^ 32 }
    ensures { IfOk result (λ table. IsPlaced order.now (length order.now) count table.items) }
{
    let mut table = vec![in alloc; 0; count]?;
    for i in 0..order.len() {
        table[order[i] as usize] = i as u32;
    }
    Ok(table)
}
