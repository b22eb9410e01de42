//! References to address sets, and matches of labels.

ghost use Rattle.json_view.specs.Words.{meaning, word_at};
ghost use Rattle.serde_json.specs.View.{view};
ghost use Rattle.statement_json.specs.References.{fallback_words, forwarded_at, forwarded_of as forwarded_in, forwarded_words, ip_set_of, label_match_of, optional_forwarded as optional_forwarded_in, scope_words};
ghost use Rattle.std.specs.Prelude.{◌≡◌, codes, option_map};
ghost use Rattle.waf_model.specs.Gives.{Gives};
ghost use Rattle.waf_model.specs.declared.read_fault.ReadFault.TheVariants as read_faults;

use crate::matching::arn;
use json_view::{label_member, member_path, optional, text_member};
use serde_json::Value;
use std::alloc::Global;
use waf_model::{Forwarded, ForwardedPosition, LabelScope, ReadFault, Statement, Text};

// A reference to an address set.
#[tactic(auto, unfolding(crate::specs::References::ip_set_of))]
pub(crate) fn ip_set(alloc: Global, v: &Value, path: &Text) -> Result<Statement, ReadFault>
    ensures { Gives read_faults.Memory (λ statement. statement) result (ip_set_of (view v.now) path.now) }
{
    let arn = arn(alloc, v, path)?;
    let forwarded = forwarded(alloc, v, path)?;
    Ok(Statement::Ip { arn, forwarded })
}

// The header whose addresses stand for the client's, where there is one.
#[tactic(auto, unfolding(crate::specs::References::forwarded_at))]
fn forwarded(alloc: Global, v: &Value, path: &Text) -> Result<Option<Forwarded>, ReadFault>
    ensures { Gives read_faults.Memory (λ forwarded. forwarded) result (forwarded_at (view v.now) path.now) }
{
    let found = optional(alloc, v, "IPSetForwardedIPConfig", path)?;
    let at = member_path(alloc, path, "IPSetForwardedIPConfig")?;
    optional_forwarded(alloc, found, &at)
}

fn optional_forwarded(
    alloc: Global,
    found: Option<&Value>,
    path: &Text,
) -> Result<Option<Forwarded>, ReadFault>
    ensures { Gives read_faults.Memory (λ forwarded. forwarded) result (optional_forwarded_in (option_map (λ v. view v.now) found.entry) path.now) }
{
    match found {
        None => Ok(None),
        Some(found) => {
            let forwarded = forwarded_of(alloc, found, path)?;
            Ok(Some(forwarded))
        }
    }
}

#[tactic(auto, unfolding(crate::specs::References::forwarded_of))]
fn forwarded_of(alloc: Global, v: &Value, path: &Text) -> Result<Forwarded, ReadFault>
    ensures { Gives read_faults.Memory (λ forwarded. forwarded) result (forwarded_in (view v.now) path.now) }
{
    let header = Text::of(alloc, text_member(alloc, v, "HeaderName", path)?.as_bytes())?;
    let fallback = fallback(alloc, v, path)?;
    let position = forwarded_position(alloc, v, path)?;
    Ok(Forwarded {
        header,
        fallback,
        position,
    })
}

// Whether the statement holds where an address can't be told.
fn fallback(alloc: Global, v: &Value, path: &Text) -> Result<bool, ReadFault>
    ensures { Gives read_faults.Memory (λ fallback. fallback) result (word_at (view v.now) (codes "FallbackBehavior") fallback_words path.now) }
{
    let word = text_member(alloc, v, "FallbackBehavior", path)?;
    if word == "MATCH" {
        Ok(true)
    } else if word == "NO_MATCH" {
        Ok(false)
    } else {
        Err(ReadFault::Name(member_path(alloc, path, "FallbackBehavior")?))
    }
}

// Which addresses of the header are looked at.
fn forwarded_position(alloc: Global, v: &Value, path: &Text) -> Result<ForwardedPosition, ReadFault>
    ensures { Gives read_faults.Memory (λ position. position) result (word_at (view v.now) (codes "Position") forwarded_words path.now) }
{
    let word = text_member(alloc, v, "Position", path)?;
    match forwarded_position_of(word) {
        Some(position) => Ok(position),
        None => Err(ReadFault::Name(member_path(alloc, path, "Position")?)),
    }
}

fn forwarded_position_of(word: &str) -> Option<ForwardedPosition>
    ensures { result ≡ meaning forwarded_words word.now }
{
    if word == "FIRST" {
        Some(ForwardedPosition::First)
    } else if word == "LAST" {
        Some(ForwardedPosition::Last)
    } else if word == "ANY" {
        Some(ForwardedPosition::Any)
    } else {
        None
    }
}

// A match of a label.
#[tactic(auto, unfolding(crate::specs::References::label_match_of))]
pub(crate) fn label_match(alloc: Global, v: &Value, path: &Text) -> Result<Statement, ReadFault>
    ensures { Gives read_faults.Memory (λ statement. statement) result (label_match_of (view v.now) path.now) }
{
    let scope = scope(alloc, v, path)?;
    let key = Text::of(alloc, label_member(alloc, v, "Key", path)?.as_bytes())?;
    Ok(Statement::Label { scope, key })
}

// Whether the key names one label or all below it.
fn scope(alloc: Global, v: &Value, path: &Text) -> Result<LabelScope, ReadFault>
    ensures { Gives read_faults.Memory (λ scope. scope) result (word_at (view v.now) (codes "Scope") scope_words path.now) }
{
    let word = text_member(alloc, v, "Scope", path)?;
    if word == "LABEL" {
        Ok(LabelScope::Label)
    } else if word == "NAMESPACE" {
        Ok(LabelScope::Namespace)
    } else {
        Err(ReadFault::Name(member_path(alloc, path, "Scope")?))
    }
}
