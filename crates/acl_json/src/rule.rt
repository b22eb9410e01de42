//! Rules of web ACLs and of rule groups, one by one.

ghost use Rattle.acl_json.specs.Rules.{action_parts_at, body_with as body_in, fresh_priority_at, group_rule_at, is_group as is_group_in, parts_at, rule_with as rule_in, statement_at, top_at, top_rule_at};
ghost use Rattle.serde_json.specs.View.{view};
ghost use Rattle.statement_json.specs.Soundness.{is_limited_top, is_sound_top, top_count as statements_in_top};
ghost use Rattle.statement_json.specs.Statements.{most_statements};
ghost use Rattle.std.specs.BTreeMap.{keys};
ghost use Rattle.std.specs.List.{list_any};
ghost use Rattle.std.specs.Prelude.{◌≡◌, ◌+◌, ◌<◌, ◌≤◌, ◌==◌, IfOk, IsTrue, OnOk, false, not};
ghost use Rattle.waf_model.specs.Cost.{is_limited_top as is_limited_body};
ghost use Rattle.waf_model.specs.Gives.{Gives};
ghost use Rattle.waf_model.specs.SoundStatement.{is_sound_statement, is_sound_top as is_sound_body};
ghost use Rattle.waf_model.specs.StatementCount.{statement_count, top_count};
ghost use Rattle.waf_model.specs.WebAcl.{IsSameRule};
ghost use Rattle.waf_model.specs.declared.read_fault.ReadFault.TheVariants as read_faults;

use crate::defaults::counting;
use crate::immunity::immunity;
use crate::labels::labels;
use json_view::{copy_of, member, member_path, name_member, whole_member};
use serde_json::Value;
use statement_json::{Encoding, TopStatement, action, beside, rule_statement, top_statement};
use std::alloc::Global;
use std::collections::BTreeMap;
use waf_model::{
    Action, GroupUse, Items, ManagedUse, ReadFault, RegexSet, Rule, Statement, Text, Top, TopRule,
};

// The greatest priority.
const GREATEST_PRIORITY: u64 = 2_147_483_647;

// A priority that no earlier rule has.
#[tactic(auto, unfolding(crate::specs::Rules::fresh_priority_at))]
fn fresh_priority<R: Drop>(
    alloc: Global,
    earlier: &BTreeMap<u32, R>,
    v: &Value,
    path: &Text,
) -> Result<u32, ReadFault>
    ensures fresh { IfOk result (λ priority. list_any (λ other. other == priority) (keys earlier.now) ≡ false) }
    ensures reading { Gives read_faults.Memory (λ priority. priority) result (fresh_priority_at (view v.now) (keys earlier.now) path.now) }
{
    let priority = whole_member(alloc, v, "Priority", path, 0, GREATEST_PRIORITY)? as u32;
    if is_fresh(earlier, priority) {
        Ok(priority)
    } else {
        Err(ReadFault::SamePriority(priority))
    }
}

// Whether no earlier rule has this priority.
#[tactic(auto, using(crate::proofs::Priorities::found_among))]
fn is_fresh<R: Drop>(earlier: &BTreeMap<u32, R>, priority: u32) -> bool
    ensures { result ≡ not (list_any (λ other. other == priority) (keys earlier.now)) }
{
    !earlier.contains_key(&priority)
}

/// What a rule has behind its statement. A rule with a group has only `count`: whether the group only counts.
#[derive(Drop)]
pub(crate) struct RuleParts {
    action: Action,
    labels: Items<Text>,
    captcha: Option<u32>,
    challenge: Option<u32>,
    count: bool,
}

// The members of a rule with an action behind its statement.
fn action_parts(alloc: Global, v: &Value, path: &Text) -> Result<RuleParts, ReadFault>
    ensures { Gives read_faults.Memory (λ parts. parts) result (action_parts_at (view v.now) path.now) }
{
    let action = action(alloc, "Action", v, path)?;
    let labels = labels(alloc, v, path)?;
    let captcha = immunity(alloc, "CaptchaConfig", v, path)?;
    let challenge = immunity(alloc, "ChallengeConfig", v, path)?;
    Ok(RuleParts {
        action,
        labels,
        captcha,
        challenge,
        count: false,
    })
}

// What stands behind the statement of a rule, which is a group or not.
#[tactic(auto, unfolding(crate::specs::Rules::parts_at))]
fn parts(alloc: Global, group: bool, v: &Value, path: &Text) -> Result<RuleParts, ReadFault>
    ensures { Gives read_faults.Memory (λ parts. parts) result (parts_at group (view v.now) path.now) }
{
    if !group {
        return action_parts(alloc, v, path);
    }
    let count = counting(alloc, v, path)?;
    Ok(RuleParts {
        action: Action::Count,
        labels: Items::new(alloc),
        captcha: None,
        challenge: None,
        count,
    })
}

// Whether the statement is a group, which needs an override action.
fn is_group(top: &TopStatement) -> bool
    ensures { result ≡ is_group_in top.now }
{
    match top {
        TopStatement::Plain(_) => false,
        TopStatement::Group(_) => true,
        TopStatement::Managed(_) => true,
    }
}

// What stands at the top of that rule of a web ACL.
fn top(
    alloc: Global,
    sets: &[RegexSet],
    encoding: Encoding,
    rule: &Text,
    v: &Value,
    path: &Text,
    seen: &mut u32,
) -> Result<TopStatement, ReadFault>
    requires few { seen.old ≤ most_statements }
    ensures few { seen.new ≤ most_statements }
    ensures grows { seen.old ≤ seen.new }
    ensures counts { OnOk result (seen.old < seen.new) }
    ensures counted { IfOk result (λ top. seen.old + statements_in_top top ≡ seen.new) }
    ensures sound { IfOk result (λ top. IsTrue (is_sound_top top)) }
    ensures limited { IfOk result (λ top. IsTrue (is_limited_top top)) }
    ensures reading { Gives read_faults.Memory (λ top. (top, seen.new)) result (top_at sets.now encoding rule.now (view v.now) path.now seen.old) }
{
    let found = member(alloc, v, "Statement", path)?;
    let at = member_path(alloc, path, "Statement")?;
    top_statement(alloc, sets, encoding, rule, found, &at, seen)
}

// The statement of that rule of that group.
fn statement(
    alloc: Global,
    sets: &[RegexSet],
    encoding: Encoding,
    group: &Text,
    rule: &Text,
    v: &Value,
    path: &Text,
    seen: &mut u32,
) -> Result<Statement, ReadFault>
    requires few { seen.old ≤ most_statements }
    ensures few { seen.new ≤ most_statements }
    ensures grows { seen.old ≤ seen.new }
    ensures counts { OnOk result (seen.old < seen.new) }
    ensures counted { IfOk result (λ statement. seen.old + statement_count statement ≡ seen.new) }
    ensures sound { IfOk result (λ statement. IsTrue (is_sound_statement statement)) }
    ensures reading { Gives read_faults.Memory (λ statement. (statement, seen.new)) result (statement_at sets.now encoding group.now rule.now (view v.now) path.now seen.old) }
{
    let found = member(alloc, v, "Statement", path)?;
    let at = member_path(alloc, path, "Statement")?;
    rule_statement(alloc, sets, encoding, group, rule, found, &at, seen)
}

// The rule of that name, priority, place and statement.
fn rule_with(name: Text, priority: u32, place: u32, statement: Statement, parts: RuleParts) -> Rule
    ensures { result ≡ rule_in name priority place statement parts }
{
    Rule {
        name,
        priority,
        place,
        statement,
        action: parts.action,
        labels: parts.labels,
        captcha: parts.captcha,
        challenge: parts.challenge,
    }
}

// What a rule of a web ACL is, by its statement and what stands behind it.
fn body_with(name: Text, priority: u32, place: u32, top: TopStatement, parts: RuleParts) -> Top
    ensures counted { top_count result ≡ statements_in_top top }
    ensures sound { is_sound_body result ≡ is_sound_top top }
    ensures limited { is_limited_body result ≡ is_limited_top top }
    ensures body { result ≡ body_in name priority place top parts }
{
    match top {
        TopStatement::Plain(statement) => {
            Top::Plain(rule_with(name, priority, place, statement, parts))
        }
        TopStatement::Group(group) => Top::Group(GroupUse {
            count: parts.count,
            ..group
        }),
        TopStatement::Managed(managed) => Top::Managed(ManagedUse {
            count: parts.count,
            ..managed
        }),
    }
}

/// A rule of a web ACL, with a priority that no earlier rule has.
#[tactic(auto, unfolding(crate::specs::Rules::top_rule_at))]
pub(crate) fn top_rule(
    alloc: Global,
    sets: &[RegexSet],
    encoding: Encoding,
    place: u32,
    earlier: &BTreeMap<u32, TopRule>,
    v: &Value,
    path: &Text,
    seen: &mut u32,
) -> Result<TopRule, ReadFault>
    requires few { seen.old ≤ most_statements }
    ensures few { seen.new ≤ most_statements }
    ensures grows { seen.old ≤ seen.new }
    ensures counts { OnOk result (seen.old < seen.new) }
    ensures fresh { IfOk result (λ rule. list_any (λ other. other == rule.priority) (keys earlier.now) ≡ false) }
    ensures place { IfOk result (λ rule. rule.place ≡ place) }
    ensures same { IfOk result (λ rule. IsSameRule rule rule.body) }
    ensures counted { IfOk result (λ rule. seen.old + top_count rule.body ≡ seen.new) }
    ensures sound { IfOk result (λ rule. IsTrue (is_sound_body rule.body)) }
    ensures limited { IfOk result (λ rule. IsTrue (is_limited_body rule.body)) }
    ensures reading { Gives read_faults.Memory (λ rule. (rule, seen.new)) result (top_rule_at sets.now encoding place (keys earlier.now) (view v.now) path.now seen.old) }
{
    let name = Text::of(alloc, name_member(alloc, v, path)?.as_bytes())?;
    let own = copy_of(alloc, &name)?;
    let priority = fresh_priority(alloc, earlier, v, path)?;
    let top = top(alloc, sets, encoding, &name, v, path, seen)?;
    let parts = parts(alloc, is_group(&top), v, path);
    let (top, parts) = beside(top, parts)?;
    Ok(TopRule {
        name,
        priority,
        place,
        body: body_with(own, priority, place, top, parts),
    })
}

/// A rule of that group, with a priority that no earlier rule has.
#[tactic(auto, unfolding(crate::specs::Rules::group_rule_at))]
pub(crate) fn group_rule(
    alloc: Global,
    sets: &[RegexSet],
    encoding: Encoding,
    group: &Text,
    place: u32,
    earlier: &BTreeMap<u32, Rule>,
    v: &Value,
    path: &Text,
    seen: &mut u32,
) -> Result<Rule, ReadFault>
    requires few { seen.old ≤ most_statements }
    ensures few { seen.new ≤ most_statements }
    ensures grows { seen.old ≤ seen.new }
    ensures counts { OnOk result (seen.old < seen.new) }
    ensures fresh { IfOk result (λ rule. list_any (λ other. other == rule.priority) (keys earlier.now) ≡ false) }
    ensures place { IfOk result (λ rule. rule.place ≡ place) }
    ensures counted { IfOk result (λ rule. seen.old + statement_count rule.statement ≡ seen.new) }
    ensures sound { IfOk result (λ rule. IsTrue (is_sound_statement rule.statement)) }
    ensures reading { Gives read_faults.Memory (λ rule. (rule, seen.new)) result (group_rule_at sets.now encoding group.now place (keys earlier.now) (view v.now) path.now seen.old) }
{
    let name = Text::of(alloc, name_member(alloc, v, path)?.as_bytes())?;
    let priority = fresh_priority(alloc, earlier, v, path)?;
    let statement = statement(alloc, sets, encoding, group, &name, v, path, seen)?;
    let parts = parts(alloc, false, v, path);
    let (statement, parts) = beside(statement, parts)?;
    Ok(rule_with(name, priority, place, statement, parts))
}
