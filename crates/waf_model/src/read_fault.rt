//! Why a bundle, a request or answers were not read.

ghost use Rattle.std.specs.Prelude.{◌≡◌};
ghost use Rattle.waf_model.specs.declared.read_fault.ReadFault.TheVariants as faults;

use std::alloc::{AllocError, AllocFailed};
use waf_base::{Memory, Text};

/// The first fault that is met in reading order, with its path, priority or ARN, or that memory was wanting.
#[derive(Debug, Drop)]
pub enum ReadFault {
    /// The bytes are no JSON text that is read (E1).
    Json,
    /// A required member is absent, a value has another JSON kind, or a field or match pattern has not exactly one
    /// member (E2).
    Shape(Text),
    /// A number is not whole or is out of its range, or a statement that stands in a key holds a number that is not
    /// whole (E3).
    Number(Text),
    /// A text is none of the names that may stand there, or not of the alphabet (E4).
    Name(Text),
    /// A rule has the priority of an earlier rule of its list (E5).
    SamePriority(u32),
    /// An action is absent, or names not exactly one of the actions that may stand there (E6).
    Action(Text),
    /// A statement stands where its kind may not stand (E7).
    Nested(Text),
    /// This ARN is referred to and is in no list (E8).
    Missing(Text),
    /// A text is no canonical base64 of the standard alphabet (E9).
    Base64(Text),
    /// A text is no address or range (E10).
    Address(Text),
    /// A limit, which is the number, is exceeded (E11).
    Limit(Text, u32),
    /// A label namespace is not of its form, or is neither given nor to be made (E12).
    Namespace(Text),
    /// A statement has not exactly one member (E13).
    OneStatement(Text),
    /// The text is JSON and has a form that is not read yet (E0).
    NotBuilt(Text),
    /// Memory was wanting.
    Memory,
}

impl From<AllocError> for ReadFault {
    ghost from_gives = { λ _ fault. fault ≡ faults.Memory };

    fn from(_error: AllocError) -> ReadFault {
        ReadFault::Memory
    }
}

impl<T: Drop> From<AllocFailed<T>> for ReadFault {
    ghost from_gives = { λ _ fault. fault ≡ faults.Memory };

    fn from(_error: AllocFailed<T>) -> ReadFault {
        ReadFault::Memory
    }
}

impl From<Memory> for ReadFault {
    ghost from_gives = { λ _ fault. fault ≡ faults.Memory };

    fn from(_memory: Memory) -> ReadFault {
        ReadFault::Memory
    }
}
