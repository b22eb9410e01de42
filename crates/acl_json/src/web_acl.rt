//! Web ACLs and rule groups.

ghost use Rattle.acl_json.specs.WebAcls.{acl_of as acl_in, acl_reading, group_of as group_in, top_acl as top_acl_in};
ghost use Rattle.serde_json.specs.View.{view};
ghost use Rattle.statement_json.specs.Statements.{most_statements};
ghost use Rattle.std.specs.Prelude.{◌≡◌, ◌+◌, ◌≤◌, [], All, IfOk, IsTrue, Some, sum_by};
ghost use Rattle.waf_model.specs.Cost.{is_limited_top};
ghost use Rattle.waf_model.specs.Gives.{Gives};
ghost use Rattle.waf_model.specs.StatementCount.{group_count, top_count};
ghost use Rattle.waf_model.specs.WebAcl.{IsSound, IsSoundGroup};
ghost use Rattle.waf_model.specs.declared.read_fault.ReadFault.TheVariants as read_faults;

use crate::heads::{acl_head, group_head};
use crate::rules::{group_rules, top_rules};
use json_view::{member, member_path, parse};
use serde_json::Value;
use statement_json::Encoding;
use std::alloc::Global;
use waf_model::{Acl, Group, ReadFault, RegexSet, Text};

// The immunity time, in seconds, where a web ACL sets none.
const DEFAULT_IMMUNITY: u32 = 300;

/// The web ACL of a bundle, its rules by ascending priority, before what it refers to is looked up. It fails where
/// memory was wanting, with `Json` where the bytes are no JSON text, and else with the first fault of `WebACL` (API type
/// `WebACL`).
#[tactic(auto, unfolding(crate::specs::WebAcls::acl_reading))]
pub fn read_acl(alloc: Global, bytes: &[u8]) -> Result<Acl, ReadFault>
    ensures sound { IfOk result IsSound }
    ensures reading { Gives read_faults.Memory (λ acl. acl) result (acl_reading bytes.now) }
{
    match parse(alloc, bytes)? {
        Some(top) => top_acl(alloc, &top),
        None => Err(ReadFault::Json),
    }
}

fn top_acl(alloc: Global, v: &Value) -> Result<Acl, ReadFault>
    ensures sound { IfOk result IsSound }
    ensures reading { Gives read_faults.Memory (λ acl. acl) result (top_acl_in (Some (view v.now))) }
{
    let path = Text::of(alloc, b"$")?;
    let found = member(alloc, v, "WebACL", &path)?;
    let at = member_path(alloc, &path, "WebACL")?;
    let mut seen = 0;
    let acl = acl_of(alloc, found, &at, Encoding::Base64, &mut seen)?;
    Ok(acl)
}

/// The web ACL of that value at that path, its rules by ascending priority, where `seen` statements of the bundle were
/// read before, and are then counted on: at most 20,000. What it refers to isn't looked up. It fails for want of memory
/// and with the first fault of the members (API type `WebACL`).
pub fn acl_of(
    alloc: Global,
    v: &Value,
    path: &Text,
    encoding: Encoding,
    seen: &mut u32,
) -> Result<Acl, ReadFault>
    requires few { seen.old ≤ most_statements }
    ensures few { seen.new ≤ most_statements }
    ensures counted { IfOk result (λ acl. seen.old + sum_by (λ top. top_count top.body) acl.rules ≡ seen.new) }
    ensures sound { IfOk result IsSound }
    ensures limited { IfOk result (λ acl. All (λ top. IsTrue (is_limited_top top.body)) acl.rules) }
    ensures reading { Gives read_faults.Memory (λ acl. (acl, seen.new)) result (acl_in [] encoding (view v.now) path.now seen.old) }
{
    let acl = acl_among(alloc, v, path, &[], encoding, seen)?;
    Ok(acl)
}

/// The same where the bundle has these pattern sets: a reference to a set that has a text outside the subset is an answer,
/// and the key of each reference that is an answer has the patterns of its set.
#[tactic(auto, unfolding(crate::specs::WebAcls::acl_of))]
pub fn acl_among(
    alloc: Global,
    v: &Value,
    path: &Text,
    sets: &[RegexSet],
    encoding: Encoding,
    seen: &mut u32,
) -> Result<Acl, ReadFault>
    requires few { seen.old ≤ most_statements }
    ensures few { seen.new ≤ most_statements }
    ensures counted { IfOk result (λ acl. seen.old + sum_by (λ top. top_count top.body) acl.rules ≡ seen.new) }
    ensures sound { IfOk result IsSound }
    ensures limited { IfOk result (λ acl. All (λ top. IsTrue (is_limited_top top.body)) acl.rules) }
    ensures reading { Gives read_faults.Memory (λ acl. (acl, seen.new)) result (acl_in sets.now encoding (view v.now) path.now seen.old) }
{
    let head = acl_head(alloc, v, path)?;
    let rules = top_rules(alloc, sets, encoding, v, path, seen)?;
    Ok(Acl {
        name: head.name,
        namespace: head.namespace,
        default: head.default,
        captcha: head.captcha.unwrap_or(DEFAULT_IMMUNITY),
        challenge: head.challenge.unwrap_or(DEFAULT_IMMUNITY),
        body_limit: head.body_limit,
        rules,
    })
}

/// The rule group of that value at that path, its rules by ascending priority, where `seen` statements of the bundle
/// were read before, and are then counted on: at most 20,000. What it refers to isn't looked up. It fails for want of
/// memory and with the first fault of the members (API type `RuleGroup`).
pub fn group_of(
    alloc: Global,
    v: &Value,
    path: &Text,
    encoding: Encoding,
    seen: &mut u32,
) -> Result<Group, ReadFault>
    requires few { seen.old ≤ most_statements }
    ensures few { seen.new ≤ most_statements }
    ensures counted { IfOk result (λ group. seen.old + group_count group ≡ seen.new) }
    ensures sound { IfOk result IsSoundGroup }
    ensures reading { Gives read_faults.Memory (λ group. (group, seen.new)) result (group_in [] encoding (view v.now) path.now seen.old) }
{
    let group = group_among(alloc, v, path, &[], encoding, seen)?;
    Ok(group)
}

/// The same where the bundle has these pattern sets.
#[tactic(auto, unfolding(crate::specs::WebAcls::group_of))]
pub fn group_among(
    alloc: Global,
    v: &Value,
    path: &Text,
    sets: &[RegexSet],
    encoding: Encoding,
    seen: &mut u32,
) -> Result<Group, ReadFault>
    requires few { seen.old ≤ most_statements }
    ensures few { seen.new ≤ most_statements }
    ensures counted { IfOk result (λ group. seen.old + group_count group ≡ seen.new) }
    ensures sound { IfOk result IsSoundGroup }
    ensures reading { Gives read_faults.Memory (λ group. (group, seen.new)) result (group_in sets.now encoding (view v.now) path.now seen.old) }
{
    let head = group_head(alloc, v, path)?;
    let rules = group_rules(alloc, sets, encoding, &head.name, v, path, seen)?;
    Ok(Group {
        arn: head.arn,
        name: head.name,
        namespace: head.namespace,
        capacity: head.capacity,
        rules,
    })
}
