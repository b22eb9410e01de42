//! What an exploration goes along.

ghost use Rattle.std.specs.Prelude.{◌≡◌, ◌≤◌, ℕ, Bool, IfOk};
ghost use Rattle.byte_automata.specs.Walk.{IsReached};

use std::alloc::Global;
use waf_base::Memory;

/// What texts lead to, byte by byte: places of any type, where equal ones are one.
pub trait Walk<P> {
    /// The place of the empty text.
    ghost start: { Self → P };

    /// The place that a byte leads to from a place.
    ghost after: { Self → P → ℕ → P };

    /// A text that leads to the place is accepted.
    ghost accepting: { Self → P → Bool };

    /// The place of the empty text. It fails only for want of memory.
    fn first(&self, alloc: Global) -> Result<P, Memory>
        ensures { IfOk result (λ place. place ≡ start self.now) };

    /// A text that leads to the place is accepted.
    fn accepts(&self, place: &P) -> bool
        requires { IsReached (start self.now) (after self.now) place.now }
        ensures { result ≡ accepting self.now place.now };

    /// The last byte of a run: each byte from the given one up to it leads where the given one leads.
    fn run_end(&self, place: &P, byte: u8) -> u8
        requires { IsReached (start self.now) (after self.now) place.now }
        ensures within { byte ≤ result }
        ensures alike { (other : ℕ) → byte ≤ other → other ≤ result →
            after self.now place.now other ≡ after self.now place.now byte };

    /// The place that the byte leads to. It fails only for want of memory.
    fn step(&self, alloc: Global, place: &P, byte: u8) -> Result<P, Memory>
        requires { IsReached (start self.now) (after self.now) place.now }
        ensures { IfOk result (λ next. next ≡ after self.now place.now byte) };
}
