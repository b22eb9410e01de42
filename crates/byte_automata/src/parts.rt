//! Classes of states that are split into parts.

ghost use Rattle.std.specs.Prelude.{◌≡◌, ◌+◌, ◌<◌, ◌≤◌, ◌^◌, ℕ, length, slice_index, IfOk, OnOk};
ghost use Rattle.std.specs.List.{All};
ghost use Rattle.byte_automata.specs.Classes.{AreCoarse};
ghost use Rattle.byte_automata.specs.Splitting.{AreParts, IsSplit, AllButOneWait};

use crate::dfa::Dfa;
use crate::kind::Kind;
use crate::lists::Lists;
use crate::sizes::Sizes;
use std::alloc::Global;
use waf_base::Memory;

/// The class of each state; for each class a list of its states, in which others may stand that left it; and the sizes
/// of the classes.
#[derive(Drop)]
pub(crate) struct Parts {
    pub(crate) of: Vec<u32>,
    pub(crate) members: Lists,
    pub(crate) sizes: Sizes,
}

/// The class 1 of the accepting states, and the class 0 of the others.
pub(crate) fn by_acceptance(alloc: Global, dfa: &Dfa) -> Result<Parts, Memory>
    ensures parts { IfOk result (λ parts. AreParts (length dfa.now.states) 2 parts.of.items parts.members parts.sizes) }
    ensures coarse { IfOk result (λ parts. AreCoarse dfa.now parts.of.items 2) }
{
    let mut of = Vec::new(alloc);
    let mut members = Lists::new(alloc, 2)?;
    let mut sizes = Sizes::new(alloc)?;
    let end = dfa.states();
    for state in 0..end {
        let class = u32::from(dfa.accepting(state));
        of.push(class)?;
        members.put(class, state)?;
        sizes.add(class);
    }
    Ok(Parts { of, members, sizes })
}

/// Adds classes with no state until there are so many.
pub(crate) fn grow(parts: &mut Parts, states: u32, base: u32, count: u32) -> Result<(), Memory>
    requires count { base ≤ count }
    requires parts { AreParts states base parts.old.of.items parts.old.members parts.old.sizes }
    ensures parts { OnOk result (AreParts states count parts.new.of.items parts.new.members parts.new.sizes) }
    ensures same { OnOk result (parts.new.of.items ≡ parts.old.of.items) }
{
    parts.members.grow(count)?;
    parts.sizes.grow(count)?;
    Ok(())
}

/// Makes a class of each group: the marked states are of the classes from `base` on then.
pub(crate) fn split(
    parts: &mut Parts,
    marked: &[u32],
    groups: &[u32],
    states: u32,
    base: u32,
    count: u32,
) -> Result<(), Memory>
    requires parts { AreParts states count parts.old.of.items parts.old.members parts.old.sizes }
    requires lengths { length groups.now ≡ length marked.now }
    requires marked { All (λ state. state < states) marked.now }
    requires groups { All (λ group. base + group < count) groups.now }
    requires one_group { (k j : ℕ) → k < length marked.now → j < length marked.now → slice_index marked.now k ≡ slice_index marked.now j → slice_index groups.now k ≡ slice_index groups.now j }
    ensures parts { OnOk result (AreParts states count parts.new.of.items parts.new.members parts.new.sizes) }
    ensures split { OnOk result (IsSplit parts.old.of.items parts.new.of.items marked.now groups.now base) }
{
    for i in 0..marked.len() {
        let state = marked[i];
        let class = base + groups[i];
        parts.sizes.remove(parts.of[state as usize]);
        parts.sizes.add(class);
        parts.of[state as usize] = class;
        parts.members.put(class, state)?;
    }
    Ok(())
}

/// Notes the largest part of each class that was split into groups of these kinds.
pub(crate) fn note_largest(sizes: &mut Sizes, kinds: &[Kind], base: u32)
    requires kinds { All (λ kind. kind.class < base) kinds.now }
    requires count { base + length kinds.now ≡ length sizes.old }
    requires few { length sizes.old < 2 ^ 32 }
    ensures { length sizes.new ≡ length sizes.old }
{
    for i in 0..kinds.len() {
        sizes.note(kinds[i].class, base + i as u32, base);
    }
}

/// The classes that wait after the split: all parts of a class but the largest.
pub(crate) fn waiting_of(
    alloc: Global,
    kinds: &[Kind],
    base: u32,
    sizes: &Sizes,
) -> Result<Vec<u32>, Memory>
    requires kinds { All (λ kind. kind.class < base) kinds.now }
    requires count { base + length kinds.now ≡ length sizes.now }
    requires few { length sizes.now < 2 ^ 32 }
    ensures wait { IfOk result (λ waiting. AllButOneWait kinds.now base waiting.items) }
    ensures below { IfOk result (λ waiting. All (λ class. class < length sizes.now) waiting.items) }
{
    let mut waiting = Vec::new(alloc);
    for i in 0..kinds.len() {
        let class = kinds[i].class;
        let part = base + i as u32;
        let spared = sizes.largest(class) == part;
        waiting.push(if spared { class } else { part })?;
    }
    Ok(waiting)
}
