//! Rows of labels: the name of a call, and what it is given.

use crate::answers::{counted, one, word};
use label_scope::{Labels, matches, qualify};
use std::alloc::Global;
use text_rows::{Kind, unknown};
use waf_model::{LabelScope, Memory, Text};

/// Labels: `matches`, a scope, a key, a namespace and a label; `any`, a scope, a key, a namespace and the labels of a
/// set; `sorted` and labels that are added one by one; `qualify`, a namespace and a label.
pub(crate) struct LabelRows;

/// The scope of that name (API field `Scope` of `LabelMatchStatement`).
fn scope_of(name: &Text) -> Option<LabelScope> {
    match name.bytes() {
        b"LABEL" => Some(LabelScope::Label),
        b"NAMESPACE" => Some(LabelScope::Namespace),
        _ => None,
    }
}

/// The set of these labels, added in their order.
fn set_of(alloc: Global, texts: &[Text]) -> Result<Labels, Memory> {
    let mut labels = Labels::new(alloc);
    for text in texts {
        labels.add(Text::of(alloc, text.bytes())?)?;
    }
    Ok(labels)
}

/// Whether a label match holds of a label.
fn matched(alloc: Global, given: &[Text]) -> Result<Vec<Text>, Memory> {
    let [scope, key, namespace, label] = given else {
        return unknown(alloc);
    };
    match scope_of(scope) {
        Some(scope) => one(alloc, word(matches(scope, key, namespace, label))),
        None => unknown(alloc),
    }
}

/// Whether a label match holds of some label of a set.
fn matched_by_any(alloc: Global, given: &[Text]) -> Result<Vec<Text>, Memory> {
    let [scope, key, namespace, labels @ ..] = given else {
        return unknown(alloc);
    };
    let Some(scope) = scope_of(scope) else {
        return unknown(alloc);
    };
    let set = set_of(alloc, labels)?;
    one(alloc, word(set.any(scope, key, namespace)))
}

/// How many labels the set has, and then the labels.
fn sorted(alloc: Global, given: &[Text]) -> Result<Vec<Text>, Memory> {
    let set = set_of(alloc, given)?;
    let labels = set.sorted()?;
    counted(alloc, labels.as_slice())
}

/// The label behind its namespace.
fn qualified(alloc: Global, given: &[Text]) -> Result<Vec<Text>, Memory> {
    let [namespace, label] = given else {
        return unknown(alloc);
    };
    let mut fields = Vec::new(alloc);
    fields.push(qualify(alloc, namespace, label)?)?;
    Ok(fields)
}

impl Kind for LabelRows {
    fn answer(&self, alloc: Global, given: &[Text]) -> Result<Vec<Text>, Memory> {
        let Some((call, rest)) = given.split_first() else {
            return unknown(alloc);
        };
        match call.bytes() {
            b"matches" => matched(alloc, rest),
            b"any" => matched_by_any(alloc, rest),
            b"sorted" => sorted(alloc, rest),
            b"qualify" => qualified(alloc, rest),
            _ => unknown(alloc),
        }
    }
}
