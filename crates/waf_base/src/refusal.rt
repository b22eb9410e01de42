//! Why a call could not give its answer: memory was wanting, or the nodes ran out.

ghost use Rattle.std.specs.Prelude.{◌≡◌};
ghost use Rattle.waf_base.specs.declared.refusal.Stop.TheVariants as stops;

use std::alloc::{AllocError, AllocFailed};
use thiserror::Error;

/// Memory was wanting. It may take the place of the answer of any call that can give it.
#[derive(Clone, Copy, Debug, PartialEq, Eq)]
pub struct Memory;

/// The meter's limit was reached.
#[derive(Clone, Copy, Debug, PartialEq, Eq)]
pub struct Full;

/// Why a call that makes nodes stopped: the meter is full, or memory was wanting.
#[derive(Clone, Copy, Debug, PartialEq, Eq, Error)]
pub enum Stop {
    #[error("the limit of nodes was reached")]
    Full,
    #[error("memory was wanting")]
    Memory,
}

impl From<AllocError> for Memory {
    fn from(_error: AllocError) -> Memory {
        Memory
    }
}

impl<T: Drop> From<AllocFailed<T>> for Memory {
    fn from(_error: AllocFailed<T>) -> Memory {
        Memory
    }
}

impl From<Full> for Stop {
    ghost from_gives = { λ _ stop. stop ≡ stops.Full };

    fn from(_full: Full) -> Stop {
        Stop::Full
    }
}

impl From<Memory> for Stop {
    ghost from_gives = { λ _ stop. stop ≡ stops.Memory };

    fn from(_memory: Memory) -> Stop {
        Stop::Memory
    }
}

impl From<AllocError> for Stop {
    ghost from_gives = { λ _ stop. stop ≡ stops.Memory };

    fn from(_error: AllocError) -> Stop {
        Stop::Memory
    }
}

impl<T: Drop> From<AllocFailed<T>> for Stop {
    ghost from_gives = { λ _ stop. stop ≡ stops.Memory };

    fn from(_error: AllocFailed<T>) -> Stop {
        Stop::Memory
    }
}
