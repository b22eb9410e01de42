//! The least automaton of a language.

ghost use Rattle.std.specs.Prelude.{◌≡◌, ℕ, List, IfOk};
ghost use Rattle.byte_automata.specs.Automaton.{accepts};
ghost use Rattle.byte_automata.specs.Least.{IsLeast, SameLanguage};

use crate::classes::residual_classes;
use crate::dfa::Dfa;
use crate::redirected::redirected;
use crate::renumbered::renumbered;
use std::alloc::Global;
use waf_base::Memory;

impl Dfa {
    /// The least automaton of the same language: no two of its states accept the same texts from there on, they are
    /// numbered in the order of first reach (breadth first, by ascending bytes), and no two neighbouring edges of a state
    /// lead to one state. It makes no node, and fails only for want of memory. Automata of one language give equal ones,
    /// which `same_least` states.
    pub fn shrink(self, alloc: Global) -> Result<Dfa, Memory>
        ensures language { IfOk result (λ least. (text : List ℕ) → accepts least text ≡ accepts self text) }
        ensures least { IfOk result IsLeast }
    {
        let classes = residual_classes(alloc, &self)?;
        let redirected = redirected(alloc, &self, classes.of.as_slice(), classes.count)?;
        renumbered(alloc, &redirected)
    }
}

/// A law: two least automata of one language are equal.
pub fn same_least(one: &Dfa, other: &Dfa)
    requires one { IsLeast one.now }
    requires other { IsLeast other.now }
    requires language { SameLanguage one.now other.now }
    ensures { one.now ≡ other.now }
{}
