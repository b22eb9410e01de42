//! The states from which a byte leads to a state of a class that waits.

ghost use Rattle.std.specs.Prelude.{◌≡◌, ◌<◌, ℕ, [], length, IfOk, OnOk};
ghost use Rattle.std.specs.List.{All, Contains};
ghost use Rattle.byte_automata.specs.Splitting.{Adds, IsSourceOf, IsSourceOfWaiting, list_at};

use crate::lists::Lists;
use crate::numbering::Numbering;
use crate::parts::Parts;
use std::alloc::Global;
use waf_base::Memory;

/// The sources of the states of the classes that wait, each once.
pub(crate) fn marked_states(
    alloc: Global,
    sources: &Lists,
    parts: &Parts,
    waiting: &[u32],
) -> Result<Numbering<u32>, Memory>
    requires waiting { All (λ class. class < length parts.now.members) waiting.now }
    requires within { (list state : ℕ) → Contains (list_at parts.now.members list) state → state < length parts.now.of.items }
    requires sources { length sources.now ≡ length parts.now.of.items }
    ensures { IfOk result (λ marked. Adds (IsSourceOfWaiting parts.now.of.items parts.now.members sources.now waiting.now) [] marked) }
{
    let mut marked = Numbering::new(alloc);
    for class in waiting {
        mark_class(sources, parts, *class, &mut marked)?;
    }
    Ok(marked)
}

/// Marks the sources of the states of a class.
fn mark_class(
    sources: &Lists,
    parts: &Parts,
    class: u32,
    marked: &mut Numbering<u32>,
) -> Result<(), Memory>
    requires class { class < length parts.now.members }
    requires within { (list state : ℕ) → Contains (list_at parts.now.members list) state → state < length parts.now.of.items }
    requires sources { length sources.now ≡ length parts.now.of.items }
    ensures { OnOk result (Adds (IsSourceOf parts.now.of.items parts.now.members sources.now class) marked.old marked.new) }
{
    for state in parts.members.of(class) {
        if parts.of[*state as usize] == class {
            mark_all(sources.of(*state), marked)?;
        }
    }
    Ok(())
}

/// Marks the states that are not yet marked.
fn mark_all(states: &[u32], marked: &mut Numbering<u32>) -> Result<(), Memory>
    ensures { OnOk result (Adds (Contains states.now) marked.old marked.new) }
{
    for state in states {
        marked.number(*state)?;
    }
    Ok(())
}
