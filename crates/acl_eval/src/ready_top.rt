//! Rules of the web ACL, each beside what is prepared of it.

ghost use Rattle.std.specs.Prelude.{◌≡◌, IfOk};
ghost use Rattle.acl_eval.specs.Preparation.{AreReadyTops, IsReadyBody, IsReadyScope, IsReadyTop};
ghost use Rattle.match_eval.specs.Sets.{AreSetsOf};
ghost use Rattle.waf_model.specs.declared.bundle.Bundle.{Bundle};

use crate::ready_rule::ReadyRule;
use match_eval::{Ready, Sets};
use std::alloc::Global;
use waf_model::{GroupUse, ManagedUse, Memory, Statement, Top, TopRule};

/// A rule of the web ACL, and what is prepared of it.
#[derive(Drop)]
pub(crate) struct ReadyTop<'a> {
    pub(crate) top: &'a TopRule,
    pub(crate) body: ReadyBody<'a>,
}

/// What is prepared of a rule of the web ACL: the statement of a plain rule, or the one that a managed rule group is scoped
/// down to. The rules of a group that is referred to are prepared with the group.
#[derive(Drop)]
pub(crate) enum ReadyBody<'a> {
    Plain(ReadyRule<'a>),
    Group(&'a GroupUse),
    Managed {
        use_of: &'a ManagedUse,
        scope_down: Option<Ready<'a>>,
    },
}

impl<'a> ReadyTop<'a> {
    /// Prepares the rule, with the sets of its bundle. It fails only for want of memory.
    pub(crate) fn of(
        alloc: Global,
        top: &'a TopRule,
        sets: &'a Sets<'_>,
    ) -> Result<ReadyTop<'a>, Memory>
        ensures top { IfOk result (λ ready. ready.top.now ≡ top.now) }
        ensures body { IfOk result (λ ready. (bundle : Bundle) → AreSetsOf bundle sets.now → IsReadyTop bundle ready) }
    {
        let body = ReadyBody::of(alloc, &top.body, sets)?;
        Ok(ReadyTop { top, body })
    }
}

impl<'a> ReadyBody<'a> {
    /// Prepares what the rule is. It fails only for want of memory.
    fn of(alloc: Global, body: &'a Top, sets: &'a Sets<'_>) -> Result<ReadyBody<'a>, Memory>
        ensures { IfOk result (λ ready. (bundle : Bundle) → AreSetsOf bundle sets.now → IsReadyBody bundle body.now ready) }
    {
        match body {
            Top::Plain(rule) => {
                let ready = ReadyRule::of(alloc, rule, sets)?;
                Ok(ReadyBody::Plain(ready))
            }
            Top::Group(use_of) => Ok(ReadyBody::Group(use_of)),
            Top::Managed(use_of) => {
                let scope_down = ready_scope(alloc, &use_of.scope_down, sets)?;
                Ok(ReadyBody::Managed { use_of, scope_down })
            }
        }
    }
}

/// Prepares the statement that a managed rule group is scoped down to, if it has one. It fails only for want of memory.
fn ready_scope<'a>(
    alloc: Global,
    scope_down: &'a Option<Statement>,
    sets: &'a Sets<'_>,
) -> Result<Option<Ready<'a>>, Memory>
    ensures { IfOk result (λ ready. (bundle : Bundle) → AreSetsOf bundle sets.now → IsReadyScope bundle scope_down.now ready) }
{
    match scope_down {
        None => Ok(None),
        Some(statement) => {
            let ready = Ready::of(alloc, statement, sets)?;
            Ok(Some(ready))
        }
    }
}

/// Prepares the rules of a web ACL, in their order. It fails only for want of memory.
pub(crate) fn ready_tops<'a>(
    alloc: Global,
    tops: &'a [TopRule],
    sets: &'a Sets<'_>,
) -> Result<Vec<ReadyTop<'a>>, Memory>
    ensures { IfOk result (λ readies. (bundle : Bundle) → AreSetsOf bundle sets.now → AreReadyTops bundle tops.now readies.items) }
{
    let mut readies = Vec::new(alloc);
    for top in tops {
        readies.push(ReadyTop::of(alloc, top, sets)?)?;
    }
    Ok(readies)
}
