//! Rules as words of a line.

use crate::line::Line;
use crate::statement_line::{push_part, push_statement};
use waf_model::{GroupUse, Items, ManagedUse, Memory, Rule, Text, Top, TopRule};

fn push_labels(line: &mut Line, labels: &Items<Text>) -> Result<(), Memory> {
    for label in labels.as_slice() {
        line.word(b"+")?;
        line.mark(label.bytes())?;
    }
    Ok(())
}

fn push_time(line: &mut Line, name: &[u8], time: &Option<u32>) -> Result<(), Memory> {
    if let Some(time) = time {
        line.word(name)?;
        line.number(u64::from(*time))?;
    }
    Ok(())
}

fn push_head(line: &mut Line, name: &Text, priority: u32, place: u32) -> Result<(), Memory> {
    line.word(name.bytes())?;
    line.number(u64::from(priority))?;
    line.number(u64::from(place))
}

/// Adds the name, the priority and the place, the statement, the action, each label behind a +, and the rule's own times.
pub(crate) fn push_rule(line: &mut Line, rule: &Rule) -> Result<(), Memory> {
    push_head(line, &rule.name, rule.priority, rule.place)?;
    push_statement(line, &rule.statement)?;
    line.named(&rule.action)?;
    push_labels(line, &rule.labels)?;
    push_time(line, b"captcha", &rule.captcha)?;
    push_time(line, b"challenge", &rule.challenge)
}

/// Adds the ARN, whether the group only counts, the excluded rules, and each override behind a comma.
pub(crate) fn push_group_use(line: &mut Line, group: &GroupUse) -> Result<(), Memory> {
    line.word(b"Group")?;
    line.word(group.arn.bytes())?;
    line.named(&group.count)?;
    line.word(b"excluded")?;
    line.words(&group.excluded)?;
    for one in group.overrides.as_slice() {
        line.mark(b",")?;
        line.word(one.name.bytes())?;
        line.named(&one.action)?;
    }
    Ok(())
}

/// Adds the vendor, the name and the version, whether the group only counts, its key, and what it is scoped down to.
pub(crate) fn push_managed_use(line: &mut Line, managed: &ManagedUse) -> Result<(), Memory> {
    line.word(b"Managed")?;
    line.word(managed.vendor.bytes())?;
    line.word(managed.name.bytes())?;
    if let Some(version) = &managed.version {
        line.word(version.bytes())?;
    }
    line.named(&managed.count)?;
    line.word(managed.key.bytes())?;
    match &managed.scope_down {
        Some(part) => push_part(line, part),
        None => Ok(()),
    }
}

/// Adds the name, the priority and the place, then what the rule is.
pub(crate) fn push_top_rule(line: &mut Line, top: &TopRule) -> Result<(), Memory> {
    push_head(line, &top.name, top.priority, top.place)?;
    match &top.body {
        Top::Plain(rule) => {
            line.word(b"Plain")?;
            push_rule(line, rule)
        }
        Top::Group(group) => push_group_use(line, group),
        Top::Managed(managed) => push_managed_use(line, managed),
    }
}
