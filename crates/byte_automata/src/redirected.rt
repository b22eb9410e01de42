//! An automaton whose edges lead to one state of each class.

ghost use Rattle.std.specs.Prelude.{◌≡◌, ℕ, ◌<◌, ◌^◌, length, slice_index, IfOk};
ghost use Rattle.std.specs.List.{All};
ghost use Rattle.byte_automata.specs.Least.{Redirects, AreResidualClasses, AreNames};

use crate::dfa::Dfa;
use crate::renumbered::push_state;
use crate::row::renamed_row;
use crate::state::State;
use sqlite_items::Items;
use std::alloc::Global;
use waf_base::Memory;

/// The automaton with each edge, and the start, led to one state of the class, which is the same for the whole class.
pub(crate) fn redirected(
    alloc: Global,
    dfa: &Dfa,
    classes: &[u32],
    count: u32,
) -> Result<Dfa, Memory>
    requires classes { AreResidualClasses dfa.now classes.now }
    requires below { All (λ class. class < count) classes.now }
    ensures { IfOk result (Redirects dfa.now) }
{
    let end = dfa.states();
    let names = names_of(alloc, classes, count)?;
    let mut states = Vec::new(alloc);
    'states: for state in 0..end {
        let row = renamed_row(alloc, dfa.edges_of(state), names.as_slice())?;
        push_state(
            &mut states,
            State {
                accepting: dfa.accepting(state),
                edges: Items::from_vec(row),
            },
        )?;
    }
    let start = names[dfa.start() as usize];
    Ok(Dfa::of(start, states))
}

/// For each state the name of one state of its class.
fn names_of(alloc: Global, classes: &[u32], count: u32) -> Result<Vec<u32>, Memory>
    requires below { All (λ class. class < count) classes.now }
    requires few { length classes.now < 2 ^ 32 }
    ensures { IfOk result (λ names. AreNames classes.now names.items) }
{
    let members = members_of(alloc, classes, count)?;
    let mut names = Vec::new(alloc);
    for i in 0..classes.len() {
        names.push(members[classes[i] as usize])?;
    }
    Ok(names)
}

/// For each class that has a state the last of its states.
pub(crate) fn members_of(alloc: Global, classes: &[u32], count: u32) -> Result<Vec<u32>, Memory>
    requires below { All (λ class. class < count) classes.now }
    requires few { length classes.now < 2 ^ 32 }
    ensures count { IfOk result (λ members. length members.items ≡ count) }
    ensures member { IfOk result (λ members. (state : ℕ) → state < length classes.now →
        (slice_index members.items (slice_index classes.now state) < length classes.now)
        × (slice_index classes.now (slice_index members.items (slice_index classes.now state)) ≡ slice_index classes.now state)) }
{
    let mut members = vec![in alloc; 0; count as usize]?;
    for i in 0..classes.len() {
        members[classes[i] as usize] = i as u32;
    }
    Ok(members)
}
