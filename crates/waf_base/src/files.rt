//! Files by name, as the product reads them.

ghost use Rattle.std.specs.Prelude.{◌≡◌, ℕ, List, ◌≤◌, IfOk, Err};
ghost use Rattle.waf_base.specs.Counts.{Rose};
ghost use Rattle.waf_base.specs.Holding.{Holding, MayRead, MayBeTooLong};
ghost use Rattle.waf_base.specs.declared.files.FileEnd.TheVariants as ends;

use crate::refusal::Memory;
use std::alloc::{AllocError, Global};
use thiserror::Error;

/// The greatest length of a file that is read, in bytes.
pub const LONGEST_FILE: usize = 67_108_864;

/// Why a file was not read.
#[derive(Clone, Copy, Debug, PartialEq, Eq, Error)]
pub enum FileEnd {
    /// It is missing, or reading it failed.
    #[error("the file could not be read")]
    Failed,
    /// It holds more than `LONGEST_FILE` bytes.
    #[error("the file is too long")]
    TooLong,
    #[error("memory was wanting")]
    Memory,
}

impl From<AllocError> for FileEnd {
    ghost from_gives = { λ _ end. end ≡ ends.Memory };

    fn from(_error: AllocError) -> FileEnd {
        FileEnd::Memory
    }
}

impl From<Memory> for FileEnd {
    ghost from_gives = { λ _ end. end ≡ ends.Memory };

    fn from(_memory: Memory) -> FileEnd {
        FileEnd::Memory
    }
}

/// Files by name.
pub trait Files {
    /// What a name holds, as far as that is told.
    ghost tells: { Self → List ℕ → Holding };

    /// Reading the name does not fail.
    ghost sure: { Self → List ℕ → Type 0 };

    /// The count of faults.
    ghost faults: { Self → ℕ };

    /// The count of reads of files that were too long.
    ghost long_reads: { Self → ℕ };

    /// The bytes of the file of that name, or why it was not read.
    fn read(&mut self, alloc: Global, name: &str) -> Result<Vec<u8>, FileEnd>
        ensures bytes { IfOk result (λ bytes. MayRead (tells self.old name.now) bytes.items) }
        ensures failed { result ≡ Err ends.Failed → Rose (faults self.old) (faults self.new) × (sure self.old name.now → ⊥) }
        ensures too_long { result ≡ Err ends.TooLong → Rose (long_reads self.old) (long_reads self.new) × MayBeTooLong (tells self.old name.now) }
        ensures told { (n : List ℕ) → tells self.new n ≡ tells self.old n }
        ensures stays_sure { (n : List ℕ) → sure self.old n → sure self.new n }
        ensures faults { faults self.old ≤ faults self.new }
        ensures long_reads { long_reads self.old ≤ long_reads self.new };
}
