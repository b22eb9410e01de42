//! Rule groups, each with its rules prepared.

ghost use Rattle.std.specs.Prelude.{◌≡◌, IfOk, find, option_map};
ghost use Rattle.std.specs.Str.{bytes_eq};
ghost use Rattle.acl_eval.specs.Preparation.{AreReadyGroups, IsReadyGroup};
ghost use Rattle.match_eval.specs.Sets.{AreSetsOf};
ghost use Rattle.waf_model.specs.declared.bundle.Bundle.{Bundle};

use crate::ready_rule::{ReadyRule, ready_rules};
use match_eval::Sets;
use std::alloc::Global;
use waf_model::{Group, Memory, Text};

/// A rule group of the bundle and its rules prepared, once for all rules of the web ACL that refer to it.
#[derive(Drop)]
pub(crate) struct ReadyGroup<'a> {
    pub(crate) group: &'a Group,
    pub(crate) rules: Vec<ReadyRule<'a>>,
}

impl<'a> ReadyGroup<'a> {
    /// Prepares the group, with the sets of its bundle. It fails only for want of memory.
    pub(crate) fn of(
        alloc: Global,
        group: &'a Group,
        sets: &'a Sets<'_>,
    ) -> Result<ReadyGroup<'a>, Memory>
        ensures group { IfOk result (λ ready. ready.group.now ≡ group.now) }
        ensures rules { IfOk result (λ ready. (bundle : Bundle) → AreSetsOf bundle sets.now → IsReadyGroup bundle ready) }
    {
        let rules = ready_rules(alloc, group.rules.as_slice(), sets)?;
        Ok(ReadyGroup { group, rules })
    }
}

/// Prepares the groups, in their order. It fails only for want of memory.
pub(crate) fn ready_groups<'a>(
    alloc: Global,
    groups: &'a [Group],
    sets: &'a Sets<'_>,
) -> Result<Vec<ReadyGroup<'a>>, Memory>
    ensures { IfOk result (λ readies. (bundle : Bundle) → AreSetsOf bundle sets.now → AreReadyGroups bundle groups.now readies.items) }
{
    let mut readies = Vec::new(alloc);
    for group in groups {
        readies.push(ReadyGroup::of(alloc, group, sets)?)?;
    }
    Ok(readies)
}

/// The first of the groups of that ARN, if there is one (API type `RuleGroupReferenceStatement`).
pub(crate) fn referred_ready<'r, 'a>(
    groups: &'r [ReadyGroup<'a>],
    arn: &Text,
) -> Option<&'r ReadyGroup<'a>>
    ensures { option_map (λ ready. ready.now) result ≡ find (λ ready. bytes_eq ready.group.now.arn arn.now) groups.now }
{
    groups
        .iter()
        .find(|ready| ready.group.arn.bytes() == arn.bytes())
}
