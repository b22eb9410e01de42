//! A list of numbers that tells an automaton from every other.

ghost use Rattle.std.specs.Prelude.{◌≡◌, ◌++◌, ◌∷◌, length, IfOk, OnOk};
ghost use Rattle.byte_automata.specs.Key.{flattened, bit, edge_numbers};
ghost use Rattle.byte_automata.specs.Row.{CoversBytes};

use crate::dfa::Dfa;
use crate::edge::Edge;
use crate::number_list::NumberList;
use std::alloc::Global;
use waf_base::Memory;

impl Dfa {
    /// The start, and for each state whether it accepts, how many edges it has, and the edges' last bytes and targets.
    /// Only equal automata have one key, which `same_key` states. It fails only for want of memory.
    pub fn key(&self, alloc: Global) -> Result<NumberList, Memory>
        ensures { IfOk result (λ key. key ≡ flattened self.now) }
    {
        let end = self.states();
        let mut key = NumberList::new(alloc);
        key.push(self.start())?;
        'states: for state in 0..end {
            push_state_numbers(&mut key, self.accepting(state), self.edges_of(state))?;
        }
        Ok(key)
    }
}

/// Adds the numbers of a state with these edges.
fn push_state_numbers(key: &mut NumberList, accepting: bool, edges: &[Edge]) -> Result<(), Memory>
    requires covers { CoversBytes edges.now }
    ensures { OnOk result (key.new ≡ key.old ++ (bit accepting ∷ length edges.now ∷ edge_numbers edges.now)) }
{
    key.push(u32::from(accepting))?;
    key.push(edges.len() as u32)?;
    for edge in edges {
        key.push(u32::from(edge.last))?;
        key.push(edge.to)?;
    }
    Ok(())
}

/// A law: automata of one key are equal.
pub fn same_key(one: &Dfa, other: &Dfa)
    requires { flattened one.now ≡ flattened other.now }
    ensures { one.now ≡ other.now }
{}
