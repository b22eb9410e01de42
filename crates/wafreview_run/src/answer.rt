//! What a run answers, before it is written.

use crate::role::Role;
use waf_model::Text;

/// The answer of a run.
#[derive(Debug, Drop)]
pub enum Answer {
    /// The words are outside the grammar.
    Usage,
    /// The file of that role was not read.
    Unread(Role),
    /// The file of that role is too long.
    TooLong(Role),
    /// Every file was read: the status and the text that are due.
    Done { code: u8, text: Text },
    /// Memory was wanting.
    NoMemory,
}
