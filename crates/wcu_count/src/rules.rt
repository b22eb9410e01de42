//! The capacity of a web ACL, and the cost of each of its rules.

ghost use Rattle.std.specs.Prelude.{◌≡◌, ◌≤◌, IsTrue};
ghost use Rattle.waf_model.specs.Cost.{cost_of, rule_cost, is_limited_top, units_if_known, IsCounted};
ghost use Rattle.waf_model.specs.StatementCount.{top_count};
ghost use Rattle.wcu_count.specs.Bounds.{IsWithin};

use crate::look_up::{capacity_of_group, capacity_of_managed};
use crate::statements::cost_of_statement;
use crate::sums::{known, known_or_not, plus};
use waf_model::{Bundle, Capacity, Top};

/// The web ACL capacity units that the rules of the web ACL cost together, as far as they are known, and how many costs
/// are unknown (this project's own numbers). A rule group costs its stated capacity, whatever its rules cost. A group
/// that the bundle doesn't name is one unknown.
pub fn capacity(bundle: &Bundle) -> Capacity
    requires { IsCounted bundle.now }
    ensures { result ≡ cost_of bundle.now }
{
    let mut total = known(0);
    for rule in bundle.acl.rules.as_slice() {
        total = plus(total, cost_of_rule(bundle, &rule.body));
    }
    total
}

/// What a rule of the web ACL costs.
fn cost_of_rule(bundle: &Bundle, rule: &Top) -> Capacity
    requires limited { IsTrue (is_limited_top rule.now) }
    requires count { top_count rule.now ≤ 20000 }
    ensures cost { result ≡ rule_cost bundle.now rule.now }
    ensures bound { IsWithin result (top_count rule.now) }
{
    match rule {
        Top::Plain(rule) => cost_of_statement(&rule.statement),
        Top::Group(group) => {
            cost_of_group(capacity_of_group(bundle.groups.as_slice(), &group.arn))
        }
        Top::Managed(managed) => {
            let own = cost_of_group(capacity_of_managed(bundle.managed.as_slice(), managed));
            match &managed.scope_down {
                None => own,
                Some(statement) => plus(own, cost_of_statement(statement)),
            }
        }
    }
}

/// What a group of that capacity costs.
fn cost_of_group(capacity: Option<u32>) -> Capacity
    ensures cost { result ≡ units_if_known capacity }
    ensures bound { IsWithin result 1 }
{
    known_or_not(capacity.map(u64::from))
}
