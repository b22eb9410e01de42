//! Why a log was not replayed.

ghost use Rattle.std.specs.Prelude.{◌≡◌};
ghost use Rattle.impact_replay.specs.declared.replay_fault.ReplayFault.TheVariants as faults;

use waf_model::{Memory, ReadFault};

/// Why a log was not replayed: a line that isn't empty is read as no request, or memory was wanting.
#[derive(Debug, Drop)]
pub enum ReplayFault {
    /// The first line that is read as no request has this number, counted from 1 with the empty lines, and this first
    /// fault, which is never `Memory`.
    Line { number: u64, fault: ReadFault },
    /// Memory was wanting.
    Memory,
}

impl From<Memory> for ReplayFault {
    ghost from_gives = { λ _ fault. fault ≡ faults.Memory };

    fn from(_memory: Memory) -> ReplayFault {
        ReplayFault::Memory
    }
}
