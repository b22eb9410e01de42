//! The least text that an automaton accepts.

ghost use Rattle.std.specs.Prelude.{◌≡◌, ℕ, List, ◌<◌, ◌≤◌, true, false, length, slice_index, IfOk, MatchOption};
ghost use Rattle.std.specs.List.{All};
ghost use Rattle.byte_automata.specs.Automaton.{Accepts, accepting};
ghost use Rattle.byte_automata.specs.FirstReach.{arrival_at};
ghost use Rattle.byte_automata.specs.Shortest.{IsShortest};
ghost use Rattle.byte_automata.specs.Words.{text_at};

use crate::arrival::Arrival;
use crate::dfa::Dfa;
use crate::explored::explore;
use std::alloc::Global;
use waf_base::Memory;

impl Dfa {
    /// The least text that is accepted, by length and then by bytes; None exactly where none is. It fails only for want of
    /// memory.
    pub fn shortest(&self, alloc: Global) -> Result<Option<Vec<u8>>, Memory>
        ensures { IfOk result (λ found. MatchOption found
            ((text : List ℕ) → Accepts self.now text → ⊥)
            (λ text. IsShortest self.now text.items)) }
    {
        let explored = explore(alloc, self)?;
        match first_accepting(self, explored.order.as_slice()) {
            None => Ok(None),
            Some(place) => {
                let text = text_of(alloc, explored.arrivals.as_slice(), place)?;
                Ok(Some(text))
            }
        }
    }
}

/// The first place of an accepting state.
fn first_accepting(dfa: &Dfa, order: &[u32]) -> Option<usize>
    requires { All (λ state. state < length dfa.now.states) order.now }
    ensures { MatchOption result
        ((place : ℕ) → place < length order.now → accepting dfa.now (slice_index order.now place) ≡ false)
        (λ found. (found < length order.now) × (accepting dfa.now (slice_index order.now found) ≡ true)
        × ((place : ℕ) → place < found → accepting dfa.now (slice_index order.now place) ≡ false)) }
{
    for place in 0..order.len() {
        if dfa.accepting(order[place]) {
            return Some(place);
        }
    }
    None
}

/// The text that leads to a place.
fn text_of(alloc: Global, arrivals: &[Arrival], place: usize) -> Result<Vec<u8>, Memory>
    requires place { place ≤ length arrivals.now }
    requires earlier { (k : ℕ) → k < length arrivals.now → (arrival_at arrivals.now k).from ≤ k }
    ensures { IfOk result (λ text. text.items ≡ text_at arrivals.now place) }
{
    let mut text = Vec::new(alloc);
    let mut place = place;
    'back: while place > 0 {
        let arrival = arrivals[place - 1];
        text.push(arrival.byte)?;
        place = arrival.from as usize;
    }
    text.reverse();
    Ok(text)
}
