//! What no bundle and no request in a file say: a length at the end of its type, ranges without bits, a rate below a
//! negation, and sets that are in no list. All else that is tested is a row of run_rows.

use label_scope::Labels;
use match_eval::holds;
use std::alloc::Global;
use std::test::Fail;
use waf_model::Address::{V4, V6};
use waf_model::{
    Acl, Address, Answers, Boxed, Bundle, Cidr, Compare, Context, Decision, Field, IpSet, Items,
    Memory, Request, Statement, StatementAnswer, Text,
};

/// A bundle without rules, whose address set `a` has every address of either version that is named.
fn bundle_of(alloc: Global, every: &[Address]) -> Result<Bundle, Memory> {
    let mut ranges = Items::new(alloc);
    for base in every {
        ranges.push(Cidr {
            base: *base,
            bits: 0,
        })?;
    }
    let mut ip_sets = Items::new(alloc);
    ip_sets.push(IpSet {
        arn: Text::of(alloc, b"a")?,
        ranges,
    })?;
    Ok(Bundle {
        acl: Acl {
            name: Text::new(alloc),
            namespace: Text::new(alloc),
            default: Decision::Allow,
            captcha: 300,
            challenge: 300,
            body_limit: 8192,
            rules: Items::new(alloc),
        },
        groups: Items::new(alloc),
        ip_sets,
        regex_sets: Items::new(alloc),
        managed: Items::new(alloc),
    })
}

/// A request of empty parts from that address.
fn request_from(alloc: Global, address: Address) -> Request {
    Request {
        method: Text::new(alloc),
        path: Text::new(alloc),
        query: Text::new(alloc),
        headers: Items::new(alloc),
        body: Text::new(alloc),
        address,
    }
}

/// The answers that say of the empty key that it matches.
fn answers_of(alloc: Global) -> Result<Answers, Memory> {
    let mut statements = Items::new(alloc);
    statements.push(StatementAnswer {
        key: Text::new(alloc),
        holds: true,
    })?;
    Ok(Answers {
        statements,
        groups: Items::new(alloc),
        tokens: Items::new(alloc),
    })
}

/// Whether the statement holds of a request from that address, where the empty key is answered so.
fn held(
    alloc: Global,
    bundle: &Bundle,
    statement: &Statement,
    address: Address,
) -> Result<bool, Memory> {
    let request = request_from(alloc, address);
    let answers = answers_of(alloc)?;
    let context = Context {
        bundle,
        namespace: &bundle.acl.namespace,
    };
    let seen = Labels::new(alloc);
    holds(alloc, statement, &request, &answers, &seen, &context)
}

/// The opposite of the statement.
fn not(alloc: Global, part: Statement) -> Result<Statement, Memory> {
    Ok(Statement::Not(Boxed::new(alloc, part)?))
}

/// A rate within that scope, which is answered so.
fn in_scope(alloc: Global, scope: Statement) -> Result<Statement, Memory> {
    Ok(Statement::Rate {
        key: Text::new(alloc),
        custom_keys: 0,
        scope_down: Some(Boxed::new(alloc, scope)?),
    })
}

/// A reference to the address set of that name.
fn in_set(alloc: Global, arn: &[u8]) -> Result<Statement, Memory> {
    Ok(Statement::Ip {
        arn: Text::of(alloc, arn)?,
        forwarded: None,
    })
}

#[test]
fn lengths_are_compared_up_to_the_end_of_their_type(rt: HostRuntime) -> Result<(), Fail> {
    let alloc = rt.alloc();
    let bundle = bundle_of(alloc, &[])?;
    for (op, wanted) in [(Compare::Lt, true), (Compare::Ge, false)] {
        let size = Statement::Size {
            op,
            size: u64::MAX,
            field: Field::UriPath,
            transforms: Items::new(alloc),
        };
        assert_eq!(rt; held(alloc, &bundle, &size, V4(1))?, wanted);
    }
    Ok(())
}

#[test]
fn a_range_without_bits_has_every_address_of_its_version(rt: HostRuntime) -> Result<(), Fail> {
    let alloc = rt.alloc();
    let inside = in_set(alloc, b"a")?;
    let every_v4 = bundle_of(alloc, &[V4(0)])?;
    assert!(rt; held(alloc, &every_v4, &inside, V4(u32::MAX))?);
    assert!(rt; !held(alloc, &every_v4, &inside, V6(0))?);
    let every_v6 = bundle_of(alloc, &[V6(0)])?;
    assert!(rt; held(alloc, &every_v6, &inside, V6(u128::MAX))?);
    assert!(rt; !held(alloc, &every_v6, &inside, V4(0))?);
    Ok(())
}

#[test]
fn a_set_in_no_list_has_nothing(rt: HostRuntime) -> Result<(), Fail> {
    let alloc = rt.alloc();
    let bundle = bundle_of(alloc, &[])?;
    let patterns = Statement::PatternSet {
        arn: Text::of(alloc, b"c")?,
        field: Field::UriPath,
        transforms: Items::new(alloc),
        source: Text::new(alloc),
    };
    let addresses = in_set(alloc, b"c")?;
    assert!(rt; !held(alloc, &bundle, &patterns, V4(1))?);
    assert!(rt; !held(alloc, &bundle, &addresses, V4(1))?);
    let elsewhere = not(alloc, addresses)?;
    assert!(rt; held(alloc, &bundle, &elsewhere, V4(1))?);
    let below = not(alloc, in_scope(alloc, elsewhere)?)?;
    assert!(rt; !held(alloc, &bundle, &below, V4(1))?);
    Ok(())
}
