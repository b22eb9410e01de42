//! Files of rows: a case is a row, with what is given and what is wanted; docs/ROWS.md has the format. A program reads
//! them, and prints which rows came to something else.
#![tactic(auto)]

mod names;
mod open_row;
mod printing;
mod reader;
mod reporting;
mod row;
mod shown;
mod unfolding;

pub use printing::print_report;
pub use reader::read_rows;
pub use reporting::{Kind, report, unknown};
pub use row::{Row, RowsFault};
