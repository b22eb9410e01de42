//! A file that is held in memory.

use crate::text::Text;

/// A file's name and bytes.
#[derive(Debug, Drop)]
pub struct NamedFile {
    pub name: Text,
    pub bytes: Text,
}
