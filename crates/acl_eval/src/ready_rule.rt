//! Rules, each beside its prepared statement.

ghost use Rattle.std.specs.Prelude.{◌≡◌, IfOk};
ghost use Rattle.acl_eval.specs.Preparation.{AreReadyRules, IsReadyRule};
ghost use Rattle.match_eval.specs.Sets.{AreSetsOf};
ghost use Rattle.waf_model.specs.declared.bundle.Bundle.{Bundle};

use match_eval::{Ready, Sets};
use std::alloc::Global;
use waf_model::{Memory, Rule};

/// A rule of the web ACL or of a rule group, and its statement prepared for any number of requests.
#[derive(Drop)]
pub(crate) struct ReadyRule<'a> {
    pub(crate) rule: &'a Rule,
    pub(crate) statement: Ready<'a>,
}

impl<'a> ReadyRule<'a> {
    /// Prepares the rule, with the sets of its bundle. It fails only for want of memory.
    pub(crate) fn of(
        alloc: Global,
        rule: &'a Rule,
        sets: &'a Sets<'_>,
    ) -> Result<ReadyRule<'a>, Memory>
        ensures rule { IfOk result (λ ready. ready.rule.now ≡ rule.now) }
        ensures statement { IfOk result (λ ready. (bundle : Bundle) → AreSetsOf bundle sets.now → IsReadyRule bundle ready) }
    {
        let statement = Ready::of(alloc, &rule.statement, sets)?;
        Ok(ReadyRule { rule, statement })
    }
}

/// Prepares the rules, in their order. It fails only for want of memory.
pub(crate) fn ready_rules<'a>(
    alloc: Global,
    rules: &'a [Rule],
    sets: &'a Sets<'_>,
) -> Result<Vec<ReadyRule<'a>>, Memory>
    ensures { IfOk result (λ readies. (bundle : Bundle) → AreSetsOf bundle sets.now → AreReadyRules bundle rules.now readies.items) }
{
    let mut readies = Vec::new(alloc);
    for rule in rules {
        readies.push(ReadyRule::of(alloc, rule, sets)?)?;
    }
    Ok(readies)
}
