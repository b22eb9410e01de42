//! The classes of the states that accept the same texts from there on.

ghost use Rattle.std.specs.Prelude.{◌≡◌, ◌<◌, IfOk};
ghost use Rattle.std.specs.List.{All};
ghost use Rattle.byte_automata.specs.Least.{AreResidualClasses};

use crate::dfa::Dfa;
use crate::groups::groups_of;
use crate::marking::marked_states;
use crate::parts::{by_acceptance, grow, note_largest, split, waiting_of};
use crate::sources::sources_of;
use std::alloc::Global;
use waf_base::Memory;

/// The class of each state, and how many numbers name classes.
#[derive(Drop)]
pub(crate) struct Classes {
    pub(crate) of: Vec<u32>,
    pub(crate) count: u32,
}

/// Two states are of one class exactly where they accept the same texts from there on. Classes that wait split the
/// states from which bytes lead into them, and all parts of a class but the largest wait in their turn, so each state
/// waits at most as often as the size of its class can be halved. Each time a state that an edge leads to waits, the whole
/// row of the edge's state is gone through: the work is at most the sum of the squares of the states' numbers of edges,
/// times these halvings.
pub(crate) fn residual_classes(alloc: Global, dfa: &Dfa) -> Result<Classes, Memory>
    ensures classes { IfOk result (λ classes. AreResidualClasses dfa.now classes.of.items) }
    ensures below { IfOk result (λ classes. All (λ class. class < classes.count) classes.of.items) }
{
    let states = dfa.states();
    let sources = sources_of(alloc, dfa)?;
    let mut parts = by_acceptance(alloc, dfa)?;
    let mut count = 2;
    let mut waiting = Vec::from_slice(alloc, &[1])?;
    'rounds: loop {
        let marked = marked_states(alloc, &sources, &parts, waiting.as_slice())?;
        let marked = marked.as_slice();
        if marked.is_empty() {
            return Ok(Classes {
                of: parts.of,
                count,
            });
        }
        let groups = groups_of(alloc, dfa, parts.of.as_slice(), count, marked)?;
        let kinds = groups.kinds.as_slice();
        let Some(next) = count.checked_add(kinds.len() as u32) else {
            return Err(Memory);
        };
        grow(&mut parts, states, count, next)?;
        split(
            &mut parts,
            marked,
            groups.of.as_slice(),
            states,
            count,
            next,
        )?;
        note_largest(&mut parts.sizes, kinds, count);
        waiting = waiting_of(alloc, kinds, count, &parts.sizes)?;
        count = next;
    }
}
