//! Label namespaces, and the accounts of ARNs that they are made of.

ghost use Rattle.acl_json.specs.Namespaces.{account_of as account_in, after_colon as behind_colon, checked_namespace, is_namespace as is_namespace_text, made_namespace, namespace_at, namespace_of as namespace_by};
ghost use Rattle.serde_json.specs.View.{view};
ghost use Rattle.std.specs.Prelude.{◌≡◌, IfOk, option_and_then, option_map};
ghost use Rattle.waf_model.specs.Gives.{Gives};
ghost use Rattle.waf_model.specs.Pieces.{first_piece};
ghost use Rattle.waf_model.specs.WebAcl.{IsNamespace};
ghost use Rattle.waf_model.specs.declared.read_fault.ReadFault.TheVariants as read_faults;

use json_view::{copy_of, member_path, optional_text};
use serde_json::Value;
use std::alloc::Global;
use waf_model::{Memory, ReadFault, Text};

// The label namespace, or the one that the account of the ARN, the kind and the name make. The kind is `:webacl:` or
// `:rulegroup:`.
pub(crate) fn namespace(
    alloc: Global,
    kind: &[u8],
    v: &Value,
    arn: Option<&str>,
    name: &Text,
    path: &Text,
) -> Result<Text, ReadFault>
    ensures sound { IfOk result IsNamespace }
    ensures reading { Gives read_faults.Memory (λ namespace. namespace) result (namespace_at kind.now (view v.now) (option_map (λ text. text.now) arn.entry) name.now path.now) }
{
    let given = optional_text(alloc, v, "LabelNamespace", path)?;
    match given {
        Some(given) => checked(alloc, given, path),
        None => made(alloc, kind, arn, name, path),
    }
}

// A namespace that is given.
#[tactic(auto, using(crate::proofs::Namespaced::given_is))]
fn checked(alloc: Global, given: &str, path: &Text) -> Result<Text, ReadFault>
    ensures sound { IfOk result IsNamespace }
    ensures reading { Gives read_faults.Memory (λ namespace. namespace) result (checked_namespace given.now path.now) }
{
    if is_namespace(given) {
        Ok(Text::of(alloc, given.as_bytes())?)
    } else {
        Err(ReadFault::Namespace(member_path(alloc, path, "LabelNamespace")?))
    }
}

// Whether the text begins `awswaf:` and ends in `:`.
fn is_namespace(text: &str) -> bool
    ensures { result ≡ is_namespace_text text.now }
{
    text.as_bytes().starts_with(b"awswaf:") && text.as_bytes().ends_with(b":")
}

// The namespace that the account of the ARN makes, if there is one.
#[tactic(auto, using(crate::proofs::Namespaced::made_is))]
fn made(
    alloc: Global,
    kind: &[u8],
    arn: Option<&str>,
    name: &Text,
    path: &Text,
) -> Result<Text, ReadFault>
    ensures sound { IfOk result IsNamespace }
    ensures reading { Gives read_faults.Memory (λ namespace. namespace) result (made_namespace kind.now (option_and_then account_in (option_map (λ text. text.now) arn.entry)) name.now path.now) }
{
    let account = match arn {
        Some(arn) => account_of(arn),
        None => None,
    };
    match account {
        Some(account) => Ok(namespace_of(alloc, kind, account, name)?),
        None => Err(ReadFault::Namespace(copy_of(alloc, path)?)),
    }
}

// `awswaf:`, the account, the kind, the name, `:`.
fn namespace_of(alloc: Global, kind: &[u8], account: &str, name: &Text) -> Result<Text, Memory>
    ensures { IfOk result (λ namespace. namespace ≡ namespace_by kind.now account.now name.now) }
{
    let mut namespace = Text::of(alloc, b"awswaf:")?;
    namespace.push(account.as_bytes())?;
    namespace.push(kind)?;
    namespace.push(name.bytes())?;
    namespace.push(b":")?;
    Ok(namespace)
}

// The fifth part of the ARN between colons, which must not be empty.
#[tactic(auto, unfolding(crate::specs::Namespaces::account_of))]
fn account_of(arn: &str) -> Option<&str>
    ensures { option_map (λ account. account.now) result ≡ account_in arn.now }
{
    let rest = after_colon(after_colon(after_colon(after_colon(arn)?)?)?)?;
    let account = before_colon(rest);
    if account.is_empty() {
        None
    } else {
        Some(account)
    }
}

// What stands behind the next colon.
#[tactic(auto, using(crate::proofs::Colons::splits))]
fn after_colon(text: &str) -> Option<&str>
    ensures { option_map (λ rest. rest.now) result ≡ behind_colon text.now }
{
    match text.split_once(':') {
        Some((_, rest)) => Some(rest),
        None => None,
    }
}

// What stands before the next colon, or all where there is none.
fn before_colon(text: &str) -> &str
    ensures { result.now ≡ first_piece 58 text.now }
{
    match text.split_once(':') {
        Some((piece, _)) => piece,
        None => text,
    }
}
