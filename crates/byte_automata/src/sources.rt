//! The states from which bytes lead to a state.

ghost use Rattle.std.specs.Prelude.{◌≡◌, ◌<◌, IfOk, OnOk, length};
ghost use Rattle.byte_automata.specs.Splitting.{AreSources};
ghost use Rattle.byte_automata.specs.Automaton.{state_at};
ghost use Rattle.byte_automata.specs.Sources.{AddsSource};

use crate::dfa::Dfa;
use crate::lists::Lists;
use std::alloc::Global;
use waf_base::Memory;

/// For each state the states from which a byte leads to it.
pub(crate) fn sources_of(alloc: Global, dfa: &Dfa) -> Result<Lists, Memory>
    ensures { IfOk result (AreSources dfa.now) }
{
    let end = dfa.states();
    let mut sources = Lists::new(alloc, end)?;
    'states: for state in 0..end {
        add_source(&mut sources, dfa, state)?;
    }
    Ok(sources)
}

/// Adds the state to the lists of those that its edges lead to.
fn add_source(sources: &mut Lists, dfa: &Dfa, state: u32) -> Result<(), Memory>
    requires state { state < length dfa.now.states }
    requires lists { length sources.old ≡ length dfa.now.states }
    ensures { OnOk result (AddsSource (state_at dfa.now state).edges (length (state_at dfa.now state).edges) state sources.old sources.new) }
{
    for edge in dfa.edges_of(state) {
        sources.put(edge.to, state)?;
    }
    Ok(())
}
