//! The cost of a statement.

ghost use Rattle.std.specs.Prelude.{◌≡◌, ◌+◌, ◌*◌, ◌≤◌, IsTrue, true, map, sum, option_map, unwrap_or};
ghost use Rattle.std.specs.List.{list_all};
ghost use Rattle.std.specs.Option.{option_map_or};
ghost use Rattle.waf_model.specs.Cost.{statement_cost, sum_of, is_limited, with_scope_down, units};
ghost use Rattle.waf_model.specs.StatementCount.{statement_count};
ghost use Rattle.wcu_count.specs.Bounds.{IsWithin};

use crate::bases::{base_of, cost_of_ip_set, cost_of_test};
use crate::sums::{known, known_or_not, plus};
use waf_model::{Boxed, Capacity, Statement};

/// What the statement costs.
#[cycle(cost)]
pub(crate) fn cost_of_statement(statement: &Statement) -> Capacity
    requires limited { IsTrue (is_limited statement.now) }
    requires count { statement_count statement.now ≤ 20000 }
    ensures cost { result ≡ statement_cost statement.now }
    ensures bound { IsWithin result (statement_count statement.now) }
{
    match statement {
        Statement::ByteMatch {
            field,
            transforms,
            position,
            ..
        } => cost_of_test(base_of(*position), field, transforms.as_slice()),
        Statement::Size {
            field,
            transforms,
            ..
        } => cost_of_test(1, field, transforms.as_slice()),
        Statement::Regex {
            field,
            transforms,
            ..
        } => cost_of_test(3, field, transforms.as_slice()),
        Statement::PatternSet {
            field,
            transforms,
            ..
        } => cost_of_test(25, field, transforms.as_slice()),
        Statement::Ip { forwarded, .. } => known(cost_of_ip_set(forwarded)),
        Statement::Label { .. } => known(1),
        Statement::And(parts) => cost_of_all(parts.as_slice()),
        Statement::Or(parts) => cost_of_all(parts.as_slice()),
        Statement::Not(part) => cost_of_statement(part.get()),
        Statement::Rate {
            custom_keys,
            scope_down,
            ..
        } => cost_of_rate(*custom_keys, scope_down),
        Statement::Opaque { cost, .. } => known_or_not(*cost),
    }
}

/// What the statements cost together.
#[cycle(cost)]
fn cost_of_all(statements: &[Statement]) -> Capacity
    requires limited { IsTrue (list_all (λ limited. limited) (map is_limited statements.now)) }
    requires count { sum (map statement_count statements.now) ≤ 20000 }
    ensures cost { result ≡ sum_of (map statement_cost statements.now) }
    ensures bound { IsWithin result (sum (map statement_count statements.now)) }
{
    let mut total = known(0);
    for statement in statements {
        total = plus(total, cost_of_statement(statement));
    }
    total
}

/// What a rate-based statement costs, with its scope-down.
#[cycle(cost)]
fn cost_of_rate(custom_keys: u32, scope_down: &Option<Boxed<Statement>>) -> Capacity
    requires limited { IsTrue (option_map_or is_limited scope_down.now true) }
    requires count { 1 + unwrap_or (option_map statement_count scope_down.now) 0 ≤ 20000 }
    ensures cost { result ≡ with_scope_down (units (2 + 30 * custom_keys)) (option_map statement_cost scope_down.now) }
    ensures bound { IsWithin result (1 + unwrap_or (option_map statement_count scope_down.now) 0) }
{
    let own = known(2 + 30 * u64::from(custom_keys));
    match scope_down {
        None => own,
        Some(statement) => plus(own, cost_of_statement(statement.get())),
    }
}
