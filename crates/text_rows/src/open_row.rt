//! A row that further lines may go on with.

use crate::row::{Row, RowsFault};
use std::alloc::Global;
use waf_base::Text;

/// A row as far as it was read.
#[derive(Debug, Drop)]
pub(crate) struct OpenRow {
    line: u64,
    given: Vec<Text>,
    /// What is wanted, from the field with the arrow on.
    wanted: Option<Vec<Text>>,
}

/// What stands behind the arrow of a field that has one.
pub(crate) fn behind_arrow(field: &[u8]) -> Option<&[u8]> {
    match field {
        b"=>" => Some(&[]),
        [b'=', b'>', b' ', rest @ ..] => Some(rest),
        _ => None,
    }
}

impl OpenRow {
    /// A row of no fields, which begins in that line.
    pub(crate) fn new(alloc: Global, line: u64) -> OpenRow {
        OpenRow {
            line,
            given: Vec::new(alloc),
            wanted: None,
        }
    }

    /// Adds a field without an arrow.
    pub(crate) fn add(&mut self, field: Text) -> Result<(), RowsFault> {
        match &mut self.wanted {
            Some(wanted) => wanted.push(field)?,
            None => self.given.push(field)?,
        }
        Ok(())
    }

    /// Adds the field with the arrow, of which there is one.
    pub(crate) fn add_wanted(&mut self, alloc: Global, field: Text) -> Result<(), RowsFault> {
        if self.wanted.is_some() {
            return Err(RowsFault::NoRow(self.line));
        }
        let mut wanted = Vec::new(alloc);
        wanted.push(field)?;
        self.wanted = Some(wanted);
        Ok(())
    }

    /// The row, where there was a field with an arrow.
    pub(crate) fn closed(self) -> Result<Row, RowsFault> {
        let OpenRow {
            line,
            given,
            wanted,
        } = self;
        match wanted {
            Some(wanted) => Ok(Row {
                line,
                given,
                wanted,
            }),
            None => Err(RowsFault::NoRow(line)),
        }
    }
}
