//! Costs that no bundle in a file comes to: a rate of as many custom keys as its type holds, and a reference to a rule
//! group that is in no list. All else that is tested is a row of run_rows.

ghost use Rattle.std.specs.Prelude.{◌≤◌, IsTrue, IfOk};
ghost use Rattle.waf_model.specs.Cost.{is_limited_top, IsCounted};
ghost use Rattle.waf_model.specs.StatementCount.{top_count};

use std::alloc::Global;
use std::test::Fail;
use waf_model::{
    Acl, Action, Bundle, Decision, GroupUse, Items, Memory, Rule, Statement, Text, Top, TopRule,
};
use wcu_count::capacity;

/// A bundle whose web ACL has that one rule.
fn bundle_of(alloc: Global, body: Top) -> Result<Bundle, Memory>
    requires limited { IsTrue (is_limited_top body) }
    requires count { top_count body ≤ 100 }
    ensures { IfOk result IsCounted }
{
    let mut rules = Items::new(alloc);
    rules.push(TopRule {
        name: Text::new(alloc),
        priority: 0,
        place: 0,
        body,
    })?;
    Ok(Bundle {
        acl: Acl {
            name: Text::new(alloc),
            namespace: Text::new(alloc),
            default: Decision::Allow,
            captcha: 300,
            challenge: 300,
            body_limit: 8192,
            rules,
        },
        groups: Items::new(alloc),
        ip_sets: Items::new(alloc),
        regex_sets: Items::new(alloc),
        managed: Items::new(alloc),
    })
}

/// The known cost of a web ACL of that one rule, and how many costs are unknown.
fn cost_of(alloc: Global, body: Top) -> Result<(u64, u32), Memory>
    requires limited { IsTrue (is_limited_top body) }
    requires count { top_count body ≤ 100 }
{
    let bundle = bundle_of(alloc, body)?;
    let cost = capacity(&bundle);
    Ok((cost.known, cost.unknown))
}

#[test]
fn costs_that_no_file_comes_to(rt: HostRuntime) -> Result<(), Fail> {
    let alloc = rt.alloc();
    let rate = Top::Plain(Rule {
        name: Text::new(alloc),
        priority: 0,
        place: 0,
        statement: Statement::Rate {
            key: Text::new(alloc),
            custom_keys: u32::MAX,
            scope_down: None,
        },
        action: Action::Count,
        labels: Items::new(alloc),
        captcha: None,
        challenge: None,
    });
    assert_eq!(rt; cost_of(alloc, rate)?, (128_849_018_852, 0));
    let absent = Top::Group(GroupUse {
        arn: Text::new(alloc),
        overrides: Items::new(alloc),
        excluded: Items::new(alloc),
        count: false,
    });
    assert_eq!(rt; cost_of(alloc, absent)?, (0, 1));
    Ok(())
}
