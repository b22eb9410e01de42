//! A row, and why a file has none.

use std::alloc::{AllocError, AllocFailed};
use waf_base::{Memory, Text};

/// A case: what is given and what is wanted, as fields.
#[derive(Debug, Drop)]
pub struct Row {
    /// The number of the line in which the row begins, counted from 1.
    pub line: u64,
    pub given: Vec<Text>,
    pub wanted: Vec<Text>,
}

/// Why a file could not be read as rows.
#[derive(Clone, Copy, Debug, PartialEq, Eq)]
pub enum RowsFault {
    Memory,
    /// The line of this number, counted from 1, doesn't follow the format; or the row that begins there has no field of
    /// an arrow, or has two.
    NoRow(u64),
}

impl From<Memory> for RowsFault {
    fn from(_memory: Memory) -> RowsFault {
        RowsFault::Memory
    }
}

impl From<AllocError> for RowsFault {
    fn from(_error: AllocError) -> RowsFault {
        RowsFault::Memory
    }
}

impl<T: Drop> From<AllocFailed<T>> for RowsFault {
    fn from(_error: AllocFailed<T>) -> RowsFault {
        RowsFault::Memory
    }
}
