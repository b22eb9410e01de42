//! States with what they accept turned round.

ghost use Rattle.std.specs.Prelude.{◌≡◌, map};
ghost use Rattle.byte_automata.specs.Automaton.{flipped};

use crate::state::State;

/// Lets each state accept that didn't, and no other.
pub(crate) fn flip_all(states: &mut Vec<State>)
    ensures { states.new.items ≡ map flipped states.old.items }
{
    for i in 0..states.len() {
        let state = &mut states[i];
        state.accepting = !state.accepting;
    }
}
