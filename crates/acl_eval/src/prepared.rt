//! Web ACLs that are prepared for any number of requests.

ghost use Rattle.std.specs.Prelude.{IfOk};
ghost use Rattle.acl_eval.specs.Preparation.{IsPreparedFor};
ghost use Rattle.match_eval.specs.Sets.{AreSetsOf};
ghost use Rattle.waf_model.specs.Outcome.{IsOutcome};
ghost use Rattle.waf_model.specs.WholeBundle.{IsWhole};
ghost use Rattle.waf_model.specs.declared.bundle.Bundle.{Bundle};

use crate::case::Case;
use crate::ready_group::{ReadyGroup, ready_groups};
use crate::ready_top::{ReadyTop, ready_tops};
use crate::walking::walked_top;
use label_scope::Labels;
use match_eval::Sets;
use std::alloc::Global;
use waf_model::{Answers, Bundle, Ender, Memory, Outcome, Request};

/// A web ACL that is prepared for any number of requests: the statement of each of its rules, and of each rule of the
/// bundle's rule groups, is prepared once. An evaluation leaves it as it is.
#[derive(Drop)]
pub struct Prepared<'a> {
    pub(crate) bundle: &'a Bundle,
    pub(crate) rules: Vec<ReadyTop<'a>>,
    pub(crate) groups: Vec<ReadyGroup<'a>>,
}

impl<'a> Prepared<'a> {
    /// Prepares the bundle's web ACL, with the bundle's sets. The memory that it takes is linear in the bundle: a group is
    /// prepared once, however many rules refer to it. It fails only for want of memory.
    pub fn of(alloc: Global, bundle: &'a Bundle, sets: &'a Sets<'_>) -> Result<Prepared<'a>, Memory>
        ensures { IfOk result (λ prepared. AreSetsOf bundle.now sets.now → IsPreparedFor bundle.now prepared) }
    {
        let tops = bundle.acl.rules.as_slice();
        let rules = ready_tops(alloc, tops, sets)?;
        let all = bundle.groups.as_slice();
        let groups = ready_groups(alloc, all, sets)?;
        Ok(Prepared {
            bundle,
            rules,
            groups,
        })
    }

    /// The outcome of the web ACL on the request, under the answers (AWS WAF Developer Guide, "How AWS WAF processes rules
    /// and rule groups in a web ACL"): rules are tried by ascending priority, those that match add their labels, and the
    /// first whose action ends it decides, or else the default action. It is one walk over the rules. It fails only for
    /// want of memory.
    pub fn evaluate(
        &self,
        alloc: Global,
        request: &Request,
        answers: &Answers,
    ) -> Result<Outcome, Memory>
        ensures { (bundle : Bundle) → IsPreparedFor bundle self.now → IsWhole bundle → IfOk result (IsOutcome bundle request.now answers.now) }
    {
        let case = Case {
            bundle: self.bundle,
            request,
            answers,
        };
        let groups = self.groups.as_slice();
        let mut labels = Labels::new(alloc);
        for ready in self.rules.as_slice() {
            match walked_top(alloc, case, groups, ready, &mut labels)? {
                None => {}
                Some(end) => {
                    return Ok(Outcome {
                        decision: end.decision,
                        ender: end.ender,
                        labels: labels.sorted()?,
                    });
                }
            }
        }
        Ok(Outcome {
            decision: self.bundle.acl.default,
            ender: Ender::Default,
            labels: labels.sorted()?,
        })
    }
}
