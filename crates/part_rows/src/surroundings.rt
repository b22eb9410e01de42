//! What a statement is read among.

use crate::given::{encoding, number};
use crate::pattern_sets::sets_at;
use crate::row_fault::RowFault;
use statement_json::Encoding;
use std::alloc::Global;
use waf_model::{RegexSet, Text};

/// How search strings stand, how many statements were read before, whether pattern sets are given, and those of the bundle.
#[derive(Drop)]
pub(crate) struct Surroundings {
    pub(crate) encoding: Encoding,
    pub(crate) seen: u32,
    pub(crate) has_sets: bool,
    pub(crate) sets: Vec<RegexSet>,
}

/// What is given behind the first field, and behind the value where pattern sets are given.
pub(crate) fn surroundings_of(alloc: Global, given: &[Text]) -> Result<Surroundings, RowFault> {
    let encoding = encoding(given, 1)?;
    let seen = number(given, 2)?;
    let sets = sets_at(alloc, given, 4)?;
    Ok(Surroundings {
        encoding,
        seen,
        has_sets: given.len() > 4,
        sets,
    })
}
