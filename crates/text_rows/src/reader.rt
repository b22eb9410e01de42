//! The rows of a file.

use crate::names::{Names, is_name};
use crate::open_row::{OpenRow, behind_arrow};
use crate::row::{Row, RowsFault};
use crate::unfolding::unfolded;
use std::alloc::Global;

/// A file as far as it was read.
#[derive(Debug, Drop)]
struct Reader {
    alloc: Global,
    /// The number of the line that was read last, counted from 1.
    line: u64,
    names: Names,
    rows: Vec<Row>,
    /// The row that further lines may go on with.
    open: Option<OpenRow>,
}

impl Reader {
    /// Reads a definition: what stands behind the word `let` and its space.
    fn define(&mut self, line: &[u8]) -> Result<(), RowsFault> {
        let mut parts = line.splitn(2, |byte| *byte == b' ');
        let (Some(name), Some(text)) = (parts.next(), parts.next()) else {
            return Err(RowsFault::NoRow(self.line));
        };
        if !is_name(name) {
            return Err(RowsFault::NoRow(self.line));
        }
        let text = unfolded(self.alloc, &self.names, self.line, text)?;
        self.names.define(name, text)?;
        Ok(())
    }

    /// Closes the row that is open.
    fn close(&mut self) -> Result<(), RowsFault> {
        if let Some(open) = self.open.take() {
            self.rows.push(open.closed()?)?;
        }
        Ok(())
    }

    /// Adds the fields of a line to the row that is open.
    fn add_fields(&mut self, line: &[u8]) -> Result<(), RowsFault> {
        let Some(mut open) = self.open.take() else {
            return Err(RowsFault::NoRow(self.line));
        };
        for field in line.split(|byte| *byte == b'\t') {
            let arrow = behind_arrow(field);
            let text = unfolded(self.alloc, &self.names, self.line, arrow.unwrap_or(field))?;
            if arrow.is_some() {
                open.add_wanted(self.alloc, text)?;
            } else {
                open.add(text)?;
            }
        }
        self.open = Some(open);
        Ok(())
    }

    /// Reads the next line.
    fn read(&mut self, line: &[u8]) -> Result<(), RowsFault> {
        self.line = self.line.saturating_add(1);
        match line {
            [] | [b'#', ..] => Ok(()),
            [b'l', b'e', b't', b' ', rest @ ..] => self.define(rest),
            [b'\t', rest @ ..] => self.add_fields(rest),
            _ => {
                self.close()?;
                self.open = Some(OpenRow::new(self.alloc, self.line));
                self.add_fields(line)
            }
        }
    }
}

/// The rows of a file, in its order; or want of memory, or the first line that doesn't follow the format.
pub fn read_rows(alloc: Global, bytes: &[u8]) -> Result<Vec<Row>, RowsFault> {
    let mut reader = Reader {
        alloc,
        line: 0,
        names: Names::new(alloc),
        rows: Vec::new(alloc),
        open: None,
    };
    for line in bytes.split(|byte| *byte == b'\n') {
        reader.read(line)?;
    }
    reader.close()?;
    Ok(reader.rows)
}
