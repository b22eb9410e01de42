//! A bundle as words of a line.

use crate::acl_line::{push_acl, push_group};
use crate::line::Line;
use waf_model::{Bundle, IpSet, ManagedCapacity, Memory, RegexSet};

// An address set: its ARN, how many ranges it has, and the ranges.
fn push_ip_set(line: &mut Line, set: &IpSet) -> Result<(), Memory> {
    line.word(b"ip")?;
    line.word(set.arn.bytes())?;
    line.named(&set.ranges.len())?;
    for range in set.ranges.as_slice() {
        line.named(&range.base)?;
        line.mark(b"/")?;
        line.mark_number(u64::from(range.bits))?;
    }
    Ok(())
}

// A pattern set: its ARN, how many texts and patterns it has, whether one is outside, and the texts.
fn push_regex_set(line: &mut Line, set: &RegexSet) -> Result<(), Memory> {
    line.word(b"set")?;
    line.word(set.arn.bytes())?;
    line.named(&set.texts.len())?;
    line.named(&set.patterns.len())?;
    line.named(&set.outside)?;
    line.words(&set.texts)
}

fn push_capacity(line: &mut Line, capacity: &ManagedCapacity) -> Result<(), Memory> {
    line.word(b"managed")?;
    line.word(capacity.vendor.bytes())?;
    line.word(capacity.name.bytes())?;
    if let Some(version) = &capacity.version {
        line.word(version.bytes())?;
    }
    line.number(u64::from(capacity.capacity))
}

fn push_sets(line: &mut Line, bundle: &Bundle) -> Result<(), Memory> {
    for set in bundle.ip_sets.as_slice() {
        push_ip_set(line, set)?;
    }
    for set in bundle.regex_sets.as_slice() {
        push_regex_set(line, set)?;
    }
    for capacity in bundle.managed.as_slice() {
        push_capacity(line, capacity)?;
    }
    Ok(())
}

/// Adds `read`, the sets, the capacities, the groups, and the web ACL, each behind a word for what it is.
pub(crate) fn push_bundle(line: &mut Line, bundle: &Bundle) -> Result<(), Memory> {
    line.word(b"read")?;
    push_sets(line, bundle)?;
    for group in bundle.groups.as_slice() {
        line.word(b"group")?;
        push_group(line, group)?;
    }
    line.word(b"acl")?;
    push_acl(line, &bundle.acl)
}
