//! Body limits of web ACLs.

ghost use Rattle.acl_json.specs.BodyLimit.{association_of, body_limit_at, default_body_limit, least_limit as least_limit_in, least_of_read, limit_if_set as limit_if_set_in, limit_of, limits_at, limits_of, optional_association, request_body_of, size_words};
ghost use Rattle.json_view.specs.Words.{meaning};
ghost use Rattle.serde_json.specs.View.{members_view, view};
ghost use Rattle.std.specs.Prelude.{◌≡◌, ◌≤◌, ◌++◌, ◌∷◌, IfOk, IfSome, List, option_map, option_to_list, unwrap_or, ℕ};
ghost use Rattle.waf_model.specs.Gives.{Gives};
ghost use Rattle.waf_model.specs.WebAcl.{greatest_body_limit};
ghost use Rattle.waf_model.specs.declared.read_fault.ReadFault.TheVariants as read_faults;

use json_view::{copy_of, is_null, member_path, optional, text_member};
use serde_json::{Map, Value};
use std::alloc::Global;
use waf_model::{ReadFault, Text};

// The limit of a web ACL that sets none, in bytes.
const DEFAULT_BODY_LIMIT: u32 = 8192;

/// How many bytes of a body the web ACL inspects: the least of the limits that it sets for types of resources, at most
/// 65,536, and 8,192 where it sets none. It fails for want of memory, and with the first fault of the members of
/// `AssociationConfig`.
#[tactic(auto, unfolding(crate::specs::BodyLimit::body_limit_at))]
pub(crate) fn body_limit(alloc: Global, v: &Value, path: &Text) -> Result<u32, ReadFault>
    ensures within { IfOk result (λ limit. limit ≤ greatest_body_limit) }
    ensures reading { Gives read_faults.Memory (λ limit. limit) result (body_limit_at (view v.now) path.now) }
{
    let least = least_limit(alloc, v, path)?;
    Ok(least.unwrap_or(DEFAULT_BODY_LIMIT))
}

// The least limit that the web ACL sets, if it sets one.
#[tactic(auto, unfolding(crate::specs::BodyLimit::limits_at))]
fn least_limit(alloc: Global, v: &Value, path: &Text) -> Result<Option<u32>, ReadFault>
    ensures within { IfOk result (λ least. IfSome least (λ limit. limit ≤ greatest_body_limit)) }
    ensures reading { Gives read_faults.Memory (λ least. unwrap_or least default_body_limit) result (least_of_read (limits_at (view v.now) path.now)) }
{
    let found = optional(alloc, v, "AssociationConfig", path)?;
    let at = member_path(alloc, path, "AssociationConfig")?;
    association_if_set(alloc, found, &at)
}

// The least limit of an association, which may be absent.
fn association_if_set(
    alloc: Global,
    found: Option<&Value>,
    path: &Text,
) -> Result<Option<u32>, ReadFault>
    ensures within { IfOk result (λ least. IfSome least (λ limit. limit ≤ greatest_body_limit)) }
    ensures reading { Gives read_faults.Memory (λ least. unwrap_or least default_body_limit) result (least_of_read (optional_association (option_map (λ v. view v.now) found.entry) path.now)) }
{
    match found {
        Some(found) => association(alloc, found, path),
        None => Ok(None),
    }
}

// The least limit of an association, if there is one.
#[tactic(auto, unfolding(crate::specs::BodyLimit::association_of))]
fn association(alloc: Global, v: &Value, path: &Text) -> Result<Option<u32>, ReadFault>
    ensures within { IfOk result (λ least. IfSome least (λ limit. limit ≤ greatest_body_limit)) }
    ensures reading { Gives read_faults.Memory (λ least. unwrap_or least default_body_limit) result (least_of_read (association_of (view v.now) path.now)) }
{
    let found = optional(alloc, v, "RequestBody", path)?;
    let at = member_path(alloc, path, "RequestBody")?;
    request_body(alloc, found, &at)
}

// The least limit of the types of resources.
fn request_body(alloc: Global, found: Option<&Value>, path: &Text) -> Result<Option<u32>, ReadFault>
    ensures within { IfOk result (λ least. IfSome least (λ limit. limit ≤ greatest_body_limit)) }
    ensures reading { Gives read_faults.Memory (λ least. unwrap_or least default_body_limit) result (least_of_read (request_body_of (option_map (λ v. view v.now) found.entry) path.now)) }
{
    let Some(found) = found else {
        return Ok(None);
    };
    match found.as_object() {
        Some(members) => least_of(alloc, members, path),
        None => Err(ReadFault::Shape(copy_of(alloc, path)?)),
    }
}

// The least limit that these members set, which stand ascending by name.
fn least_of(
    alloc: Global,
    members: &Map<String, Value>,
    path: &Text,
) -> Result<Option<u32>, ReadFault>
    ensures within { IfOk result (λ least. IfSome least (λ limit. limit ≤ greatest_body_limit)) }
    ensures reading { Gives read_faults.Memory (λ least. unwrap_or least default_body_limit) result (least_of_read (limits_of (members_view members.now.entries) path.now)) }
{
    let mut least = None;
    for (name, found) in members.iter() {
        let at = member_path(alloc, path, name.as_str())?;
        let limit = limit_if_set(alloc, found, &at)?;
        least = least_with(least, limit);
    }
    Ok(least)
}

// The least limit of those so far and the one that a member sets, whatever limits follow.
fn least_with(least: Option<u32>, limit: Option<u32>) -> Option<u32>
    ensures within { IfSome least (λ limit. limit ≤ greatest_body_limit) → IfSome limit (λ limit. limit ≤ greatest_body_limit)
        → IfSome result (λ limit. limit ≤ greatest_body_limit) }
    ensures value { (others : List ℕ) → least_limit_in (option_to_list result ++ others) ≡ least_limit_in (option_to_list least ++ option_to_list limit ++ others) }
{
    match limit {
        Some(limit) => Some(lesser(least, limit)),
        None => least,
    }
}

// The lesser of the limit and the least one before it, whatever limits follow.
fn lesser(least: Option<u32>, limit: u32) -> u32
    ensures at_most { result ≤ limit }
    ensures value { (others : List ℕ) → least_limit_in (result ∷ others) ≡ least_limit_in (option_to_list least ++ limit ∷ others) }
{
    match least {
        Some(least) => least.min(limit),
        None => limit,
    }
}

// The limit that a member sets, if it isn't null.
fn limit_if_set(alloc: Global, found: &Value, path: &Text) -> Result<Option<u32>, ReadFault>
    ensures within { IfOk result (λ set. IfSome set (λ limit. limit ≤ greatest_body_limit)) }
    ensures reading { Gives read_faults.Memory option_to_list result (limit_if_set_in (view found.now) path.now) }
{
    if is_null(found) {
        return Ok(None);
    }
    let limit = limit(alloc, found, path)?;
    Ok(Some(limit))
}

// The limit for one type of resource, in bytes.
fn limit(alloc: Global, v: &Value, path: &Text) -> Result<u32, ReadFault>
    ensures within { IfOk result (λ limit. limit ≤ greatest_body_limit) }
    ensures reading { Gives read_faults.Memory (λ limit. limit) result (limit_of (view v.now) path.now) }
{
    let word = text_member(alloc, v, "DefaultSizeInspectionLimit", path)?;
    match size_of(word) {
        Some(size) => Ok(size),
        None => {
            let at = member_path(alloc, path, "DefaultSizeInspectionLimit")?;
            Err(ReadFault::Name(at))
        }
    }
}

// What the word for a size means, in bytes.
fn size_of(word: &str) -> Option<u32>
    ensures within { IfSome result (λ size. size ≤ greatest_body_limit) }
    ensures value { result ≡ meaning size_words word.now }
{
    if word == "KB_16" {
        Some(16_384)
    } else if word == "KB_32" {
        Some(32_768)
    } else if word == "KB_48" {
        Some(49_152)
    } else if word == "KB_64" {
        Some(65_536)
    } else {
        None
    }
}
