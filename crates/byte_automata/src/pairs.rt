//! The walk along the pairs of states that one text reaches.

ghost use Rattle.std.specs.Prelude.{◌≡◌, ◌<◌, length};
ghost use Rattle.byte_automata.specs.Meet.{next_pair, start_pair};
ghost use Rattle.byte_automata.specs.Walk.{IsReached};

use crate::dfa::Dfa;
use crate::state_pair::StatePair;
use crate::walk::Walk;
use std::alloc::Global;
use waf_base::Memory;

/// The pairs of states of two automata that one text reaches. A pair accepts where the left state does, and the right one
/// does or doesn't.
#[derive(Drop)]
pub(crate) struct Pairs<'a> {
    pub(crate) left: &'a Dfa,
    pub(crate) right: &'a Dfa,
    /// Whether the right state is to accept.
    pub(crate) kept: bool,
}

impl<'a> Pairs<'a> {
    // Both states of a pair that a text reaches are states of their automata.
    fn within(&self, pair: &StatePair)
        requires { IsReached (start_pair self.now.left.now self.now.right.now) (next_pair self.now.left.now self.now.right.now) pair.now }
        ensures left { pair.now.left < length self.now.left.now.states }
        ensures right { pair.now.right < length self.now.right.now.states }
    {
        let _ = self.left.states();
        let _ = self.right.states();
    }
}

impl<'a> Walk<StatePair> for Pairs<'a> {
    ghost use Rattle.std.specs.Prelude.{◌&&◌};
    ghost use Rattle.byte_automata.specs.Automaton.{accepting};
    ghost use Rattle.byte_automata.specs.Meet.{is_kept};

    ghost start = { λ walk. start_pair walk.left.now walk.right.now };

    ghost after = { λ walk pair byte. next_pair walk.left.now walk.right.now pair byte };

    ghost accepting = { λ walk pair. accepting walk.left.now pair.left && is_kept walk.kept (accepting walk.right.now pair.right) };

    fn first(&self, _alloc: Global) -> Result<StatePair, Memory> {
        Ok(StatePair {
            left: self.left.start(),
            right: self.right.start(),
        })
    }

    fn accepts(&self, pair: &StatePair) -> bool {
        self.within(pair);
        self.left.accepting(pair.left) && (self.right.accepting(pair.right) == self.kept)
    }

    fn run_end(&self, pair: &StatePair, byte: u8) -> u8 {
        self.within(pair);
        let left = self.left.run_end(pair.left, byte);
        let right = self.right.run_end(pair.right, byte);
        left.min(right)
    }

    fn step(&self, _alloc: Global, pair: &StatePair, byte: u8) -> Result<StatePair, Memory> {
        self.within(pair);
        Ok(StatePair {
            left: self.left.follow(pair.left, byte),
            right: self.right.follow(pair.right, byte),
        })
    }
}
