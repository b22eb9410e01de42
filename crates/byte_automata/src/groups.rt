//! Groups of states that lead alike.

ghost use Rattle.std.specs.Prelude.{◌≡◌, ◌<◌, ℕ, reverse, length, slice_index, IfOk};
ghost use Rattle.std.specs.List.{All};
ghost use Rattle.byte_automata.specs.Classes.{Spells, AreClasses};
ghost use Rattle.byte_automata.specs.Splitting.{AreGroups};
ghost use Rattle.byte_automata.specs.Grows.{Grows};
ghost use Rattle.byte_automata.specs.Members.{AreDifferent};

use crate::dfa::Dfa;
use crate::edge::Edge;
use crate::kind::Kind;
use crate::numbering::Numbering;
use crate::row::renamed_row;
use crate::row_step::RowStep;
use std::alloc::Global;
use waf_base::Memory;

/// The group of each of some states, and what the states of each group have in common.
#[derive(Drop)]
pub(crate) struct Groups {
    pub(crate) of: Vec<u32>,
    pub(crate) kinds: Numbering<Kind>,
}

/// The groups of the marked states that are of one class and that each byte leads to one class.
pub(crate) fn groups_of(
    alloc: Global,
    dfa: &Dfa,
    classes: &[u32],
    base: u32,
    marked: &[u32],
) -> Result<Groups, Memory>
    requires classes { AreClasses dfa.now classes.now base }
    requires marked { All (λ state. state < length dfa.now.states) marked.now }
    ensures groups { IfOk result (λ groups. AreGroups dfa.now classes.now marked.now groups.of.items groups.kinds) }
    ensures below { IfOk result (λ groups. All (λ kind. kind.class < base) groups.kinds) }
{
    let mut steps = Numbering::new(alloc);
    let mut kinds = Numbering::new(alloc);
    let mut of = Vec::new(alloc);
    let _ = dfa.states();
    'marked: for i in 0..marked.len() {
        let state = marked[i];
        let class = classes[state as usize];
        let renamed = renamed_row(alloc, dfa.edges_of(state), classes)?;
        let row = row_id(&mut steps, base, class, renamed.as_slice())?;
        of.push(kinds.number(Kind { class, row })?)?;
    }
    Ok(Groups { of, kinds })
}

/// The number of the class and the row. A number that doesn't fit 32 bits is want of memory.
fn row_id(
    steps: &mut Numbering<RowStep>,
    base: u32,
    class: u32,
    row: &[Edge],
) -> Result<u32, Memory>
    requires { class < base }
    ensures spells { IfOk result (λ id. Spells base steps.new class (reverse row.now) id) }
    ensures grown { Grows (λ _. Unit {0}) steps.old steps.new }
    ensures different { AreDifferent steps.old → AreDifferent steps.new }
{
    let mut id = class;
    for edge in row {
        let number = steps.number(RowStep {
            from: id,
            last: edge.last,
            to: edge.to,
        })?;
        let Some(next) = base.checked_add(number) else {
            return Err(Memory);
        };
        id = next;
    }
    Ok(id)
}
