//! Statements at the top of rules.

ghost use Rattle.serde_json.specs.View.{view};
ghost use Rattle.statement_json.specs.Soundness.{is_limited_top, is_sound_top, top_count};
ghost use Rattle.statement_json.specs.Statements.{most_statements, statement_within};
ghost use Rattle.statement_json.specs.Tops.{group_use_at, part_levels, rule_kind as rule_kind_in, rule_statement_of, top_kind as top_kind_in, top_statement_of};
ghost use Rattle.std.specs.Prelude.{◌≡◌, ◌+◌, ◌≤◌, [], Some, ◌<◌, IfOk, IsTrue, OnOk};
ghost use Rattle.statement_json.specs.Kinds.{kind_of as kind_in};
ghost use Rattle.waf_model.specs.Cost.{is_limited};
ghost use Rattle.waf_model.specs.Gives.{Gives};
ghost use Rattle.waf_model.specs.SoundStatement.{is_sound_statement};
ghost use Rattle.waf_model.specs.StatementCount.{statement_count};
ghost use Rattle.waf_model.specs.declared.read_fault.ReadFault.TheVariants as read_faults;

use crate::encoding::Encoding;
use crate::group_use::group_use;
use crate::managed_use::managed_use;
use crate::opaque::opaque;
use crate::rate::rate;
use crate::scope_down::PART_LEVELS;
use crate::statement::{of_inner_kind, opened};
use crate::statement_kind::{StatementKind, kind_of};
use json_view::{member, member_path};
use serde_json::Value;
use std::alloc::Global;
use waf_model::{GroupUse, ManagedUse, ReadFault, RegexSet, Statement, Text};

/// The statement of a rule of a web ACL. Whether a group only counts isn't told by it.
#[derive(Drop)]
pub enum TopStatement {
    Plain(Statement),
    Group(GroupUse),
    Managed(ManagedUse),
}

/// The statement at the top of that rule of that group, where `seen` statements were read before, and are then counted
/// on, each with its parts: at most 20,000. It may be rate-based. Names of headers are tokens then, and costs and
/// transformations within their limits. Its faults are those of the statement's members, in the order of the API type's
/// table (API type `Statement`).
pub fn rule_statement(
    alloc: Global,
    sets: &[RegexSet],
    encoding: Encoding,
    group: &Text,
    rule: &Text,
    v: &Value,
    path: &Text,
    seen: &mut u32,
) -> Result<Statement, ReadFault>
    requires few { seen.old ≤ most_statements }
    ensures few { seen.new ≤ most_statements }
    ensures grows { seen.old ≤ seen.new }
    ensures counts { OnOk result (seen.old < seen.new) }
    ensures counted { IfOk result (λ statement. seen.old + statement_count statement ≡ seen.new) }
    ensures sound { IfOk result (λ statement. IsTrue (is_sound_statement statement)) }
    ensures limited { IfOk result (λ statement. IsTrue (is_limited statement)) }
    ensures reading { Gives read_faults.Memory (λ statement. (statement, seen.new)) result (rule_statement_of sets.now encoding group.now rule.now (view v.now) path.now seen.old) }
{
    opened(alloc, v, path, seen)?;
    let kind = kind_of(v);
    rule_kind(alloc, sets, encoding, group, rule, kind, v, path, seen)
}

// The statement at the top of a rule, by its kind.
fn rule_kind(
    alloc: Global,
    sets: &[RegexSet],
    encoding: Encoding,
    group: &Text,
    rule: &Text,
    kind: Option<StatementKind>,
    v: &Value,
    path: &Text,
    seen: &mut u32,
) -> Result<Statement, ReadFault>
    requires few { seen.old ≤ most_statements }
    ensures few { seen.new ≤ most_statements }
    ensures grows { seen.old ≤ seen.new }
    ensures reading { Gives read_faults.Memory (λ statement. (statement, seen.new)) result (rule_kind_in (statement_within part_levels sets.now encoding) sets.now encoding group.now rule.now kind (view v.now) path.now seen.old) }
{
    match kind {
        Some(StatementKind::RateBased) => rate(alloc, sets, encoding, group, rule, v, path, seen),
        Some(kind) => of_inner_kind(alloc, PART_LEVELS, sets, encoding, kind, v, path, seen),
        None => opaque(alloc, v, None, None, path),
    }
}

/// What stands at the top of that rule of a web ACL, where `seen` statements were read before, and are then counted on:
/// at most 20,000. It may be a reference to a rule group or a managed rule group, which count as one. The same holds of it
/// as of the statement of a rule of a group (API type `Statement`).
pub fn top_statement(
    alloc: Global,
    sets: &[RegexSet],
    encoding: Encoding,
    rule: &Text,
    v: &Value,
    path: &Text,
    seen: &mut u32,
) -> Result<TopStatement, ReadFault>
    requires few { seen.old ≤ most_statements }
    ensures few { seen.new ≤ most_statements }
    ensures grows { seen.old ≤ seen.new }
    ensures counts { OnOk result (seen.old < seen.new) }
    ensures counted { IfOk result (λ top. seen.old + top_count top ≡ seen.new) }
    ensures sound { IfOk result (λ top. IsTrue (is_sound_top top)) }
    ensures limited { IfOk result (λ top. IsTrue (is_limited_top top)) }
    ensures reading { Gives read_faults.Memory (λ top. (top, seen.new)) result (top_statement_of sets.now encoding rule.now (view v.now) path.now seen.old) }
{
    opened(alloc, v, path, seen)?;
    let kind = kind_of(v);
    top_kind(alloc, sets, encoding, rule, kind, v, path, seen)
}

// What stands at the top of a rule of a web ACL, by its kind.
fn top_kind(
    alloc: Global,
    sets: &[RegexSet],
    encoding: Encoding,
    rule: &Text,
    kind: Option<StatementKind>,
    v: &Value,
    path: &Text,
    seen: &mut u32,
) -> Result<TopStatement, ReadFault>
    requires few { seen.old ≤ most_statements }
    ensures few { seen.new ≤ most_statements }
    ensures grows { seen.old ≤ seen.new }
    ensures reading { Gives read_faults.Memory (λ top. (top, seen.new)) result (top_kind_in (statement_within part_levels sets.now encoding) sets.now encoding rule.now kind (view v.now) path.now seen.old) }
{
    match kind {
        Some(StatementKind::RuleGroupReference) => {
            let group = group_use_of(alloc, v, path)?;
            Ok(TopStatement::Group(group))
        }
        Some(StatementKind::ManagedRuleGroup) => {
            let managed = managed_use(alloc, sets, encoding, v, path, seen)?;
            Ok(TopStatement::Managed(managed))
        }
        kind => {
            let no_group = Text::of(alloc, b"")?;
            let statement = rule_kind(alloc, sets, encoding, &no_group, rule, kind, v, path, seen)?;
            Ok(TopStatement::Plain(statement))
        }
    }
}

// The reference to a rule group that a statement is.
#[tactic(auto, unfolding(crate::specs::Tops::group_use_at))]
fn group_use_of(alloc: Global, v: &Value, path: &Text) -> Result<GroupUse, ReadFault>
    ensures { Gives read_faults.Memory (λ group. group) result (group_use_at (view v.now) path.now) }
{
    let found = member(alloc, v, "RuleGroupReferenceStatement", path)?;
    let at = member_path(alloc, path, "RuleGroupReferenceStatement")?;
    group_use(alloc, found, &at)
}
