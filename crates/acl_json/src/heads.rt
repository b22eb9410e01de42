//! What web ACLs and rule groups have before their rules.

ghost use Rattle.acl_json.specs.WebAcls.{acl_head_at, group_head_at, group_namespace_at};
ghost use Rattle.serde_json.specs.View.{view};
ghost use Rattle.std.specs.Prelude.{◌≡◌, ◌≤◌, IfOk};
ghost use Rattle.waf_model.specs.Gives.{Gives};
ghost use Rattle.waf_model.specs.WebAcl.{IsNamespace, greatest_body_limit};
ghost use Rattle.waf_model.specs.declared.read_fault.ReadFault.TheVariants as read_faults;

use crate::body_limit::body_limit;
use crate::defaults::default_action;
use crate::immunity::immunity;
use crate::namespaces::namespace;
use json_view::{name_member, optional_text, text_member, whole_member};
use serde_json::Value;
use std::alloc::Global;
use waf_model::{Decision, ReadFault, Text};

// The greatest capacity of a rule group.
const GREATEST_CAPACITY: u64 = 1_000_000;

/// A web ACL before its rules.
#[derive(Drop)]
pub(crate) struct AclHead {
    pub(crate) name: Text,
    pub(crate) namespace: Text,
    pub(crate) default: Decision,
    pub(crate) captcha: Option<u32>,
    pub(crate) challenge: Option<u32>,
    pub(crate) body_limit: u32,
}

/// A rule group before its rules.
#[derive(Drop)]
pub(crate) struct GroupHead {
    pub(crate) arn: Text,
    pub(crate) name: Text,
    pub(crate) namespace: Text,
    pub(crate) capacity: u32,
}

// The members of a web ACL before its rules.
#[tactic(auto, unfolding(crate::specs::WebAcls::acl_head_at))]
pub(crate) fn acl_head(alloc: Global, v: &Value, path: &Text) -> Result<AclHead, ReadFault>
    ensures sound { IfOk result (λ head. IsNamespace head.namespace) }
    ensures within { IfOk result (λ head. head.body_limit ≤ greatest_body_limit) }
    ensures reading { Gives read_faults.Memory (λ head. head) result (acl_head_at (view v.now) path.now) }
{
    let name = Text::of(alloc, name_member(alloc, v, path)?.as_bytes())?;
    let arn = optional_text(alloc, v, "ARN", path)?;
    let namespace = namespace(alloc, b":webacl:", v, arn, &name, path)?;
    let default = default_action(alloc, v, path)?;
    let captcha = immunity(alloc, "CaptchaConfig", v, path)?;
    let challenge = immunity(alloc, "ChallengeConfig", v, path)?;
    let body_limit = body_limit(alloc, v, path)?;
    Ok(AclHead {
        name,
        namespace,
        default,
        captcha,
        challenge,
        body_limit,
    })
}

// The members of a rule group before its rules.
#[tactic(auto, unfolding(crate::specs::WebAcls::group_head_at))]
pub(crate) fn group_head(alloc: Global, v: &Value, path: &Text) -> Result<GroupHead, ReadFault>
    ensures sound { IfOk result (λ head. IsNamespace head.namespace) }
    ensures reading { Gives read_faults.Memory (λ head. head) result (group_head_at (view v.now) path.now) }
{
    let text = text_member(alloc, v, "ARN", path)?;
    let arn = Text::of(alloc, text.as_bytes())?;
    let name = Text::of(alloc, name_member(alloc, v, path)?.as_bytes())?;
    let namespace = group_namespace(alloc, v, text, &name, path)?;
    let capacity = whole_member(alloc, v, "Capacity", path, 0, GREATEST_CAPACITY)?;
    Ok(GroupHead {
        arn,
        name,
        namespace,
        capacity: capacity as u32,
    })
}

// The namespace of a rule group.
#[tactic(auto, unfolding(crate::specs::WebAcls::group_namespace_at))]
fn group_namespace(
    alloc: Global,
    v: &Value,
    arn: &str,
    name: &Text,
    path: &Text,
) -> Result<Text, ReadFault>
    ensures sound { IfOk result IsNamespace }
    ensures reading { Gives read_faults.Memory (λ namespace. namespace) result (group_namespace_at (view v.now) arn.now name.now path.now) }
{
    namespace(alloc, b":rulegroup:", v, Some(arn), name, path)
}
