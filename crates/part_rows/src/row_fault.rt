//! Why a row has no answer of its calls.

use json_view::ViewFault;
use std::alloc::{AllocError, AllocFailed, Global};
use text_rows::unknown;
use waf_model::{Memory, ReadFault, Text};

/// Memory was wanting, or what is given is no row of the kind.
#[derive(Clone, Copy, Debug, PartialEq, Eq)]
pub(crate) enum RowFault {
    Memory,
    Given,
}

impl From<Memory> for RowFault {
    fn from(_memory: Memory) -> RowFault {
        RowFault::Memory
    }
}

impl From<AllocError> for RowFault {
    fn from(_error: AllocError) -> RowFault {
        RowFault::Memory
    }
}

impl<T: Drop> From<AllocFailed<T>> for RowFault {
    fn from(_error: AllocFailed<T>) -> RowFault {
        RowFault::Memory
    }
}

impl From<ReadFault> for RowFault {
    fn from(fault: ReadFault) -> RowFault {
        match fault {
            ReadFault::Memory => RowFault::Memory,
            _ => RowFault::Given,
        }
    }
}

impl From<ViewFault> for RowFault {
    fn from(fault: ViewFault) -> RowFault {
        match fault {
            ViewFault::Memory => RowFault::Memory,
            _ => RowFault::Given,
        }
    }
}

/// The answer of a row's calls as that of its kind.
pub(crate) fn answered(
    alloc: Global,
    answer: Result<Vec<Text>, RowFault>,
) -> Result<Vec<Text>, Memory> {
    match answer {
        Ok(fields) => Ok(fields),
        Err(RowFault::Memory) => Err(Memory),
        Err(RowFault::Given) => unknown(alloc),
    }
}

/// The answer of one field.
pub(crate) fn alone(alloc: Global, field: Text) -> Result<Vec<Text>, RowFault> {
    let mut fields = Vec::new(alloc);
    fields.push(field)?;
    Ok(fields)
}
