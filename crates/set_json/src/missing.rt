//! The first reference of a bundle that is in no list.

ghost use Rattle.set_json.specs.Missing.{first_missing, missing_of, missing_of_acl, missing_of_groups as missing_in_groups, missing_of_rules as missing_in_rules, placed as placed_at, sooner as sooner_of, told as told_of};
ghost use Rattle.std.specs.List.{flat_map};
ghost use Rattle.std.specs.Prelude.{◌≡◌, [], ◌∷◌, None, map, option_map, unwrap_or};
ghost use Rattle.waf_model.specs.References.{Reference, addresses, addresses_of, group as group_reference, group_of, patterns, patterns_of, references, references_of};

use waf_model::{Boxed, Bundle, Group, IpSet, RegexSet, Rule, Statement, Text, Top, TopRule};

// The first address set of that ARN.
fn addresses_with<'a>(sets: &'a [IpSet], arn: &Text) -> Option<&'a IpSet>
    ensures { option_map (λ set. set.now) result ≡ addresses_of sets.now arn.now }
{
    sets.iter().find(|set| set.arn.bytes() == arn.bytes())
}

// The first pattern set of that ARN.
fn patterns_with<'a>(sets: &'a [RegexSet], arn: &Text) -> Option<&'a RegexSet>
    ensures { option_map (λ set. set.now) result ≡ patterns_of sets.now arn.now }
{
    sets.iter().find(|set| set.arn.bytes() == arn.bytes())
}

// The first rule group of that ARN.
fn group_with<'a>(groups: &'a [Group], arn: &Text) -> Option<&'a Group>
    ensures { option_map (λ group. group.now) result ≡ group_of groups.now arn.now }
{
    groups.iter().find(|group| group.arn.bytes() == arn.bytes())
}

// The ARN, where no address set of the bundle has it.
fn missing_addresses<'a>(bundle: &Bundle, arn: &'a Text) -> Option<&'a Text>
    ensures { option_map (λ arn. arn.now) result ≡ first_missing bundle.now (addresses arn.now ∷ []) }
{
    match addresses_with(bundle.ip_sets.as_slice(), arn) {
        Some(_) => None,
        None => Some(arn),
    }
}

// The ARN, where no pattern set of the bundle has it.
fn missing_patterns<'a>(bundle: &Bundle, arn: &'a Text) -> Option<&'a Text>
    ensures { option_map (λ arn. arn.now) result ≡ first_missing bundle.now (patterns arn.now ∷ []) }
{
    match patterns_with(bundle.regex_sets.as_slice(), arn) {
        Some(_) => None,
        None => Some(arn),
    }
}

// The ARN, where no rule group of the bundle has it.
fn missing_group<'a>(bundle: &Bundle, arn: &'a Text) -> Option<&'a Text>
    ensures { option_map (λ arn. arn.now) result ≡ first_missing bundle.now (group_reference arn.now ∷ []) }
{
    match group_with(bundle.groups.as_slice(), arn) {
        Some(_) => None,
        None => Some(arn),
    }
}

// The ARN of the first reference of the statement that the bundle doesn't have.
#[cycle(missing)]
fn missing_of_statement<'a>(bundle: &Bundle, statement: &'a Statement) -> Option<&'a Text>
    ensures { option_map (λ arn. arn.now) result ≡ first_missing bundle.now (references statement.now) }
{
    match statement {
        Statement::PatternSet { arn, .. } => missing_patterns(bundle, arn),
        Statement::Ip { arn, .. } => missing_addresses(bundle, arn),
        Statement::And(parts) => missing_of_parts(bundle, parts.as_slice()),
        Statement::Or(parts) => missing_of_parts(bundle, parts.as_slice()),
        Statement::Not(part) => missing_of_statement(bundle, part.get()),
        Statement::Rate { scope_down, .. } => missing_of_scope_down(bundle, scope_down),
        Statement::Opaque { arn, .. } => missing_if_patterns(bundle, arn),
        _ => None,
    }
}

// The same of the parts of a statement, in their order.
#[cycle(missing)]
fn missing_of_parts<'a>(bundle: &Bundle, parts: &'a [Statement]) -> Option<&'a Text>
    ensures { option_map (λ arn. arn.now) result ≡ first_missing bundle.now (flat_map (λ part. part) (map references parts.now)) }
{
    for part in parts {
        match missing_of_statement(bundle, part) {
            Some(arn) => return Some(arn),
            None => {}
        }
    }
    None
}

// The same of a scope-down statement, if there is one.
#[cycle(missing)]
fn missing_of_scope_down<'a>(
    bundle: &Bundle,
    scope_down: &'a Option<Boxed<Statement>>,
) -> Option<&'a Text>
    ensures { option_map (λ arn. arn.now) result ≡ first_missing bundle.now (unwrap_or (option_map references scope_down.now) []) }
{
    match scope_down {
        Some(statement) => missing_of_statement(bundle, statement.get()),
        None => None,
    }
}

// The same of a statement whose truth is an answer, which may refer to a pattern set.
fn missing_if_patterns<'a>(bundle: &Bundle, arn: &'a Option<Text>) -> Option<&'a Text>
    ensures { option_map (λ arn. arn.now) result ≡ first_missing bundle.now (unwrap_or (option_map (λ arn. patterns arn ∷ []) arn.now) []) }
{
    match arn {
        Some(arn) => missing_patterns(bundle, arn),
        None => None,
    }
}

// The ARN of the first reference of a rule of the web ACL that the bundle doesn't have.
fn missing_of_top<'a>(bundle: &Bundle, top: &'a Top) -> Option<&'a Text>
    ensures { option_map (λ arn. arn.now) result ≡ first_missing bundle.now (references_of top.now) }
{
    match top {
        Top::Plain(rule) => missing_of_statement(bundle, &rule.statement),
        Top::Group(group) => missing_group(bundle, &group.arn),
        Top::Managed(managed) => missing_of_managed(bundle, &managed.scope_down),
    }
}

// The same of the scope-down statement of a managed rule group.
fn missing_of_managed<'a>(bundle: &Bundle, scope_down: &'a Option<Statement>) -> Option<&'a Text>
    ensures { option_map (λ arn. arn.now) result ≡ first_missing bundle.now (unwrap_or (option_map references scope_down.now) []) }
{
    match scope_down {
        Some(statement) => missing_of_statement(bundle, statement),
        None => None,
    }
}

// What a rule at that place of the file misses, with its place.
fn placed(place: u32, found: Option<&Text>) -> Option<(u32, &Text)>
    ensures { option_map (λ one. (one.0, one.1.now)) result ≡ placed_at place (option_map (λ arn. arn.now) found.entry) }
{
    match found {
        Some(arn) => Some((place, arn)),
        None => None,
    }
}

// Of two rules that miss something, the one that stands first in the file.
fn sooner<'a>(
    one: Option<(u32, &'a Text)>,
    other: Option<(u32, &'a Text)>,
) -> Option<(u32, &'a Text)>
    ensures { option_map (λ one. (one.0, one.1.now)) result ≡ sooner_of (option_map (λ one. (one.0, one.1.now)) one.entry) (option_map (λ one. (one.0, one.1.now)) other.entry) }
{
    let Some(first) = one else {
        return other;
    };
    let Some(second) = other else {
        return Some(first);
    };
    if second.0 < first.0 {
        Some(second)
    } else {
        Some(first)
    }
}

// The ARN without its place.
fn told(found: Option<(u32, &Text)>) -> Option<&Text>
    ensures { option_map (λ arn. arn.now) result ≡ told_of (option_map (λ one. (one.0, one.1.now)) found.entry) }
{
    match found {
        Some((_, arn)) => Some(arn),
        None => None,
    }
}

// What the rules of the web ACL miss first, in the order of the file.
fn missing_of_tops<'a>(bundle: &Bundle, rules: &'a [TopRule]) -> Option<(u32, &'a Text)>
    ensures { option_map (λ one. (one.0, one.1.now)) result ≡ missing_of_acl bundle.now rules.now }
{
    let mut first = None;
    for rule in rules {
        first = sooner(
            first,
            placed(rule.place, missing_of_top(bundle, &rule.body)),
        );
    }
    first
}

// What the rules of a group miss first, in the order of the file.
fn missing_of_rules<'a>(bundle: &Bundle, rules: &'a [Rule]) -> Option<(u32, &'a Text)>
    ensures { option_map (λ one. (one.0, one.1.now)) result ≡ missing_in_rules bundle.now rules.now }
{
    let mut first = None;
    for rule in rules {
        first = sooner(
            first,
            placed(rule.place, missing_of_statement(bundle, &rule.statement)),
        );
    }
    first
}

// What the groups miss first, in the order of their list.
fn missing_of_groups<'a>(bundle: &Bundle, groups: &'a [Group]) -> Option<&'a Text>
    ensures { option_map (λ arn. arn.now) result ≡ missing_in_groups bundle.now groups.now }
{
    for group in groups {
        match told(missing_of_rules(bundle, group.rules.as_slice())) {
            Some(arn) => return Some(arn),
            None => {}
        }
    }
    None
}

/// The ARN of the first reference that the bundle doesn't have in the list of its kind: those of the web ACL before
/// those of the groups, the rules of each in the order of the file, an outer statement before its parts.
pub(crate) fn missing(bundle: &Bundle) -> Option<&Text>
    ensures { option_map (λ arn. arn.now) result ≡ missing_of bundle.now }
{
    match told(missing_of_tops(bundle, bundle.acl.rules.as_slice())) {
        Some(arn) => Some(arn),
        None => missing_of_groups(bundle, bundle.groups.as_slice()),
    }
}
