//! The automata of the texts that two automata accept, and that one accepts and the other doesn't.

ghost use Rattle.std.specs.Prelude.{◌≡◌, ◌+◌, ◌&&◌, not, ℕ, List, length, IfOk};
ghost use Rattle.byte_automata.specs.Automaton.{accepts};
ghost use Rattle.byte_automata.specs.Meet.{IsReachablePair, is_kept};
ghost use Rattle.waf_base.specs.Makes.{Makes};

use crate::dfa::Dfa;
use crate::pairs::Pairs;
use crate::walking::walked;
use std::alloc::Global;
use waf_base::{Meter, Stop};

impl Dfa {
    /// The automaton of the texts that both accept. It makes one node for each pair of states that one text reaches.
    /// Full comes exactly where there are more such pairs than nodes were left at entry, and leaves the meter full;
    /// after want of memory at most as many nodes are counted.
    pub fn meet(&self, alloc: Global, other: &Dfa, meter: &mut Meter) -> Result<Dfa, Stop>
        ensures language { IfOk result (λ both. (text : List ℕ) → accepts both text ≡ (accepts self.now text && accepts other.now text)) }
        ensures nodes { Makes ◌≡◌ (IsReachablePair self.now other.now) result meter.old meter.new }
        ensures states { IfOk result (λ both. meter.new.made ≡ meter.old.made + length both.states) }
    {
        self.beside(alloc, other, true, meter)
    }

    /// The automaton of the texts that this one accepts and the other doesn't. It makes one node for each pair of states
    /// that one text reaches. Full comes exactly where there are more such pairs than nodes were left at entry, and
    /// leaves the meter full; after want of memory at most as many nodes are counted.
    pub fn without(&self, alloc: Global, other: &Dfa, meter: &mut Meter) -> Result<Dfa, Stop>
        ensures language { IfOk result (λ left. (text : List ℕ) →
            accepts left text ≡ (accepts self.now text && not (accepts other.now text))) }
        ensures nodes { Makes ◌≡◌ (IsReachablePair self.now other.now) result meter.old meter.new }
        ensures states { IfOk result (λ left. meter.new.made ≡ meter.old.made + length left.states) }
    {
        self.beside(alloc, other, false, meter)
    }

    // The automaton of the texts that this one accepts and the other does (`kept`) or doesn't.
    fn beside(&self, alloc: Global, other: &Dfa, kept: bool, meter: &mut Meter) -> Result<Dfa, Stop>
        ensures language { IfOk result (λ found. (text : List ℕ) →
            accepts found text ≡ (accepts self.now text && is_kept kept (accepts other.now text))) }
        ensures nodes { Makes ◌≡◌ (IsReachablePair self.now other.now) result meter.old meter.new }
        ensures states { IfOk result (λ found. meter.new.made ≡ meter.old.made + length found.states) }
    {
        let _ = self.states();
        let _ = other.states();
        let pairs = Pairs {
            left: self,
            right: other,
            kept,
        };
        match walked(alloc, &pairs, meter) {
            Ok(found) => {
                let _ = found.states();
                Ok(found)
            }
            Err(stop) => Err(stop),
        }
    }
}
