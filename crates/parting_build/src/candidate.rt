//! Trying one path.

ghost use Rattle.std.specs.Prelude.{◌≡◌, IsTrue, IfOk, IfSome, None, MatchOption};
ghost use Rattle.std.specs.List.{list_all};
ghost use Rattle.waf_model.specs.Alike.{Decides, Parts, no_answers};
ghost use Rattle.waf_model.specs.WholeBundle.{IsWhole};
ghost use Rattle.waf_model.specs.declared.action.Decision.{Decision};
ghost use Rattle.waf_model.specs.Within.{is_path as path_test, is_path_byte as path_byte_test};
ghost use Rattle.parting_build.specs.Candidate.{AlikeAt, plain_get};

use crate::verdict::Parting;
use acl_eval::{evaluate, one_outcome};
use std::alloc::Global;
use waf_model::{Address, Answers, Bundle, Decision, Items, Memory, Request, Text};

/// A byte that may stand in the path of a request within the limits.
fn is_path_byte(byte: u8) -> bool
    ensures { result ≡ path_byte_test byte }
{
    (33 <= byte && byte <= 126) && byte != b'?' && byte != b'#'
}

/// Whether this is the path of a request within the limits.
fn is_path(path: &[u8]) -> bool
    ensures { result ≡ path_test path.now }
{
    path.starts_with(b"/") && path.len() <= 4096 && has_path_bytes(path)
}

/// Whether each byte may stand in such a path.
fn has_path_bytes(path: &[u8]) -> bool
    ensures { result ≡ list_all path_byte_test path.now }
{
    path.iter().all(|byte| is_path_byte(*byte))
}

/// A plain GET of that path.
fn request_for(alloc: Global, path: &[u8]) -> Result<Request, Memory>
    ensures { IfOk result (λ request. request ≡ plain_get path.now) }
{
    Ok(Request {
        method: Text::of(alloc, b"GET")?,
        path: Text::of(alloc, path)?,
        query: Text::new(alloc),
        headers: Items::new(alloc),
        body: Text::new(alloc),
        address: Address::V4(0),
    })
}

/// No answer to any question.
fn none_answered(alloc: Global) -> Answers
    ensures { result ≡ no_answers }
{
    Answers {
        statements: Items::new(alloc),
        groups: Items::new(alloc),
        tokens: Items::new(alloc),
    }
}

/// What the bundle's web ACL decides of the request that is tried for the path.
fn decision_at(alloc: Global, bundle: &Bundle, path: &[u8]) -> Result<Decision, Memory>
    requires whole { IsWhole bundle.now }
    ensures decides { IfOk result (Decides bundle.now (plain_get path.now) no_answers) }
    ensures alone { IfOk result (λ decision. (other : Decision) → Decides bundle.now (plain_get path.now) no_answers other → other ≡ decision) }
{
    one_outcome();
    let request = request_for(alloc, path)?;
    let answers = none_answered(alloc);
    let outcome = evaluate(alloc, bundle, &request, &answers)?;
    Ok(outcome.decision)
}

/// The request for that path where it parts the two; none where it is outside the limits, or they decide alike on it.
pub(crate) fn parting_at(
    alloc: Global,
    old: &Bundle,
    new: &Bundle,
    path: &[u8],
) -> Result<Option<Parting>, Memory>
    requires old_whole { IsWhole old.now }
    requires new_whole { IsWhole new.now }
    ensures found { IfOk result (λ found. IfSome found (λ parting. Parts old.now new.now parting.request parting.answers parting.old parting.new × (parting.request ≡ plain_get path.now))) }
    ensures none { IfOk result (λ found. found ≡ None → IsTrue (path_test path.now) → AlikeAt old.now new.now path.now) }
{
    if !is_path(path) {
        return Ok(None);
    }
    let before = decision_at(alloc, old, path)?;
    let after = decision_at(alloc, new, path)?;
    if before == after {
        return Ok(None);
    }
    Ok(Some(Parting {
        old: before,
        new: after,
        request: request_for(alloc, path)?,
        answers: none_answered(alloc),
    }))
}
