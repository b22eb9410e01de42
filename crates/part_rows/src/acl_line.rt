//! Web ACLs and rule groups as words of a line.

use crate::line::Line;
use crate::rule_line::{push_rule, push_top_rule};
use waf_model::{Acl, Group, Memory};

/// Adds the name, the namespace, the default action, the two immunity times, the body limit, and each rule behind a
/// semicolon.
pub(crate) fn push_acl(line: &mut Line, acl: &Acl) -> Result<(), Memory> {
    line.word(acl.name.bytes())?;
    line.word(acl.namespace.bytes())?;
    line.named(&acl.default)?;
    line.number(u64::from(acl.captcha))?;
    line.number(u64::from(acl.challenge))?;
    line.number(u64::from(acl.body_limit))?;
    for rule in acl.rules.as_slice() {
        line.mark(b";")?;
        push_top_rule(line, rule)?;
    }
    Ok(())
}

/// Adds the ARN, the name, the namespace, the capacity, and each rule behind a semicolon.
pub(crate) fn push_group(line: &mut Line, group: &Group) -> Result<(), Memory> {
    line.word(group.arn.bytes())?;
    line.word(group.name.bytes())?;
    line.word(group.namespace.bytes())?;
    line.number(u64::from(group.capacity))?;
    for rule in group.rules.as_slice() {
        line.mark(b";")?;
        push_rule(line, rule)?;
    }
    Ok(())
}
