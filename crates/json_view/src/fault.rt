//! Why a value is not the one that was asked for.

ghost use Rattle.json_view.specs.Faults.{fault_of};
ghost use Rattle.json_view.specs.declared.fault.ViewFault.TheVariants as faults;
ghost use Rattle.std.specs.Prelude.{◌≡◌, ◌⊎◌};

use crate::path::copy_of;
use std::alloc::{AllocError, AllocFailed, Global};
use waf_model::{Memory, ReadFault, Text};

/// The fault that is met, with the path where it is, or that memory was wanting.
#[derive(Debug, Drop)]
pub enum ViewFault {
    /// A required member is absent, or a value has another JSON kind.
    Shape(Text),
    /// A number is not whole, or is out of its range.
    Number(Text),
    /// Memory was wanting.
    Memory,
}

impl From<AllocError> for ViewFault {
    ghost from_gives = { λ _ fault. fault ≡ faults.Memory };

    fn from(_error: AllocError) -> ViewFault {
        ViewFault::Memory
    }
}

impl<T: Drop> From<AllocFailed<T>> for ViewFault {
    ghost from_gives = { λ _ fault. fault ≡ faults.Memory };

    fn from(_error: AllocFailed<T>) -> ViewFault {
        ViewFault::Memory
    }
}

impl From<Memory> for ViewFault {
    ghost from_gives = { λ _ fault. fault ≡ faults.Memory };

    fn from(_memory: Memory) -> ViewFault {
        ViewFault::Memory
    }
}

impl From<ViewFault> for ReadFault {
    ghost from_gives = { λ fault read. read ≡ fault_of fault };

    fn from(fault: ViewFault) -> ReadFault {
        match fault {
            ViewFault::Shape(path) => ReadFault::Shape(path),
            ViewFault::Number(path) => ReadFault::Number(path),
            ViewFault::Memory => ReadFault::Memory,
        }
    }
}

/// The fault of another JSON kind at that path, or that memory was wanting.
pub(crate) fn shape(alloc: Global, path: &Text) -> ViewFault
    ensures { (result ≡ faults.Memory) ⊎ (result ≡ faults.Shape path.now) }
{
    match copy_of(alloc, path) {
        Ok(path) => ViewFault::Shape(path),
        Err(Memory) => ViewFault::Memory,
    }
}

/// The fault of a number out of its range at that path, or that memory was wanting.
pub(crate) fn number(alloc: Global, path: &Text) -> ViewFault
    ensures { (result ≡ faults.Memory) ⊎ (result ≡ faults.Number path.now) }
{
    match copy_of(alloc, path) {
        Ok(path) => ViewFault::Number(path),
        Err(Memory) => ViewFault::Memory,
    }
}
