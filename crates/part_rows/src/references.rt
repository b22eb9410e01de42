//! Rows of references: the ARN of a reference and the ARNs of groups.

use crate::answers::one;
use group_override::referred_group;
use std::alloc::Global;
use text_rows::{Kind, unknown};
use waf_model::{Group, Items, Memory, Text};

/// References by ARN, and the place of the group that is referred to, from 0, or `none`.
pub(crate) struct References;

/// A group of that ARN, whose name is its place.
fn group(alloc: Global, arn: &Text, place: usize) -> Result<Group, Memory> {
    let mut name = Text::new(alloc);
    name.push_number(alloc, place as u64)?;
    Ok(Group {
        arn: Text::of(alloc, arn.bytes())?,
        name,
        namespace: Text::new(alloc),
        capacity: 0,
        rules: Items::new(alloc),
    })
}

impl Kind for References {
    fn answer(&self, alloc: Global, given: &[Text]) -> Result<Vec<Text>, Memory> {
        let Some((arn, arns)) = given.split_first() else {
            return unknown(alloc);
        };
        let mut groups = Vec::new(alloc);
        for (place, one) in arns.iter().enumerate() {
            groups.push(group(alloc, one, place)?)?;
        }
        match referred_group(groups.as_slice(), arn) {
            Some(group) => one(alloc, group.name.bytes()),
            None => one(alloc, b"none"),
        }
    }
}
