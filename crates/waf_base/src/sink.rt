//! Where the product writes its text.

ghost use Rattle.std.specs.Prelude.{◌≡◌, ℕ, List, Option, ◌≤◌, ◌<◌, length, take, IfOk, OnOk, OnErr};
ghost use Rattle.waf_base.specs.Counts.{Rose};
ghost use Rattle.waf_base.specs.Taken.{Appends};

/// A write failed, and nothing of the piece was taken.
#[derive(Clone, Copy, Debug, PartialEq, Eq)]
pub struct Failed;

/// Takes bytes, piece by piece.
pub trait Sink {
    /// The bytes that were taken so far, where that is told.
    ghost taken: { Self → Option (List ℕ) };

    /// The count of faults.
    ghost faults: { Self → ℕ };

    /// Takes a front of the piece, at least one byte, and says how many bytes that was. No fault is counted then.
    fn write(&mut self, bytes: &[u8]) -> Result<usize, Failed>
        requires { 0 < length bytes.now }
        ensures count { IfOk result (λ n. (1 ≤ n) × (n ≤ length bytes.now)) }
        ensures taken { IfOk result (λ n. Appends (taken self.old) (taken self.new) (take n bytes.now)) }
        ensures level { OnOk result (faults self.new ≡ faults self.old) }
        ensures failed { OnErr result (Rose (faults self.old) (faults self.new) × (taken self.new ≡ taken self.old)) }
        ensures faults { faults self.old ≤ faults self.new };
}
