//! Pattern sets of a bundle that statements are read among.

use crate::given::json;
use crate::row_fault::RowFault;
use json_view::{list, list_member, member, text, text_member, truth};
use serde_json::Value;
use std::alloc::Global;
use waf_model::{Items, ReadFault, RegexSet, Text};

// The texts of a list.
fn texts_of(alloc: Global, texts: &[Value]) -> Result<Items<Text>, ReadFault> {
    let path = Text::new(alloc);
    let mut all = Items::new(alloc);
    for one in texts {
        let one = text(alloc, one, &path)?;
        all.push(Text::of(alloc, one.as_bytes())?)?;
    }
    Ok(all)
}

// The set of an object with the members ARN, Texts and Outside, which says whether some text is outside the subset.
fn set_of(alloc: Global, set: &Value) -> Result<RegexSet, ReadFault> {
    let path = Text::new(alloc);
    let outside = truth(alloc, member(alloc, set, "Outside", &path)?, &path)?;
    let arn = text_member(alloc, set, "ARN", &path)?;
    let arn = Text::of(alloc, arn.as_bytes())?;
    let texts = texts_of(alloc, list_member(alloc, set, "Texts", &path)?)?;
    Ok(RegexSet {
        arn,
        texts,
        patterns: Items::new(alloc),
        outside,
    })
}

// The sets of a list.
fn sets_of(alloc: Global, objects: &[Value]) -> Result<Vec<RegexSet>, ReadFault> {
    let mut sets = Vec::new(alloc);
    for object in objects {
        let set = set_of(alloc, object)?;
        sets.push(set)?;
    }
    Ok(sets)
}

/// The sets of the JSON list at that place, or none where nothing is given there.
pub(crate) fn sets_at(
    alloc: Global,
    given: &[Text],
    place: usize,
) -> Result<Vec<RegexSet>, RowFault> {
    if given.len() <= place {
        return Ok(Vec::new(alloc));
    }
    let path = Text::new(alloc);
    let value = json(alloc, given, place)?;
    let objects = list(alloc, &value, &path)?;
    let sets = sets_of(alloc, objects)?;
    Ok(sets)
}
