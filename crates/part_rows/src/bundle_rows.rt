//! Rows of bundles.

use crate::given::bytes;
use crate::row_fault::{RowFault, alone, answered};
use crate::told::told_line;
use set_json::read_bundle;
use std::alloc::Global;
use text_rows::Kind;
use waf_model::{Memory, Text};

/// The kind of bundles. Given are a bundle's bytes; it comes to what was read, or to its fault.
pub(crate) struct BundleRows;

fn fields(alloc: Global, given: &[Text]) -> Result<Vec<Text>, RowFault> {
    let read = read_bundle(alloc, bytes(given, 0)?);
    alone(alloc, told_line(alloc, read, None)?)
}

impl Kind for BundleRows {
    fn answer(&self, alloc: Global, given: &[Text]) -> Result<Vec<Text>, Memory> {
        answered(alloc, fields(alloc, given))
    }
}
