//! Bundles: a web ACL with all that it refers to.

ghost use Rattle.serde_json.specs.View.{view};
ghost use Rattle.set_json.specs.Bundles.{acl_at, bundle_of as bundle_in, bundle_reading, members_of, top_bundle};
ghost use Rattle.set_json.specs.Missing.{missing_of};
ghost use Rattle.set_json.specs.Whole.{IsOrderedSet};
ghost use Rattle.statement_json.specs.Statements.{most_statements};
ghost use Rattle.std.specs.Prelude.{◌≡◌, ◌+◌, ◌≤◌, All, IfOk, IsTrue, codes, option_map, sum_by};
ghost use Rattle.waf_model.specs.Cost.{is_limited_top};
ghost use Rattle.waf_model.specs.Gives.{Gives};
ghost use Rattle.waf_model.specs.StatementCount.{bundle_count, top_count};
ghost use Rattle.waf_model.specs.WebAcl.{IsSound, IsSoundGroup};
ghost use Rattle.waf_model.specs.WholeBundle.{IsWhole};
ghost use Rattle.waf_model.specs.declared.read_fault.ReadFault.TheVariants as read_faults;

use crate::encoding::encoding;
use crate::groups::groups;
use crate::lists::{ip_sets, managed_capacities, regex_sets};
use crate::missing::missing;
use acl_json::acl_among;
use json_view::{copy_of, member, member_path, parse};
use serde_json::Value;
use statement_json::Encoding;
use std::alloc::Global;
use waf_model::{Acl, Bundle, ReadFault, RegexSet, Text};

/// The bundle of a JSON text: a web ACL as the API's GetWebACL answers it, with the rule groups, address sets, pattern
/// sets and capacities of managed rule groups beside it. It fails where memory was wanting, with `Json` where the bytes
/// are no JSON text, else with the first fault of the members in the order `SearchStringEncoding`, `IPSets`,
/// `RegexPatternSets`, `ManagedCapacities`, `RuleGroups`, `WebACL`, and else with `Missing` and the ARN of the first
/// reference that is in no list.
#[tactic(auto, unfolding(crate::specs::Bundles::bundle_reading))]
pub fn read_bundle(alloc: Global, bytes: &[u8]) -> Result<Bundle, ReadFault>
    ensures whole { IfOk result IsWhole }
    ensures reading { Gives read_faults.Memory (λ bundle. bundle) result (bundle_reading bytes.now) }
{
    match parse(alloc, bytes)? {
        Some(top) => top_of(alloc, &top),
        None => Err(ReadFault::Json),
    }
}

fn top_of(alloc: Global, v: &Value) -> Result<Bundle, ReadFault>
    ensures whole { IfOk result IsWhole }
    ensures reading { Gives read_faults.Memory (λ bundle. bundle) result (bundle_in (view v.now) (codes "$")) }
{
    let path = Text::of(alloc, b"$")?;
    let bundle = bundle_of(alloc, v, &path)?;
    Ok(bundle)
}

// The bundle of that value, which misses nothing.
#[tactic(auto, using(crate::proofs::Wholes::whole_of))]
fn bundle_of(alloc: Global, v: &Value, path: &Text) -> Result<Bundle, ReadFault>
    ensures whole { IfOk result IsWhole }
    ensures reading { Gives read_faults.Memory (λ bundle. bundle) result (bundle_in (view v.now) path.now) }
{
    let bundle = members(alloc, v, path)?;
    match missing(&bundle) {
        None => Ok(bundle),
        Some(arn) => Err(ReadFault::Missing(copy_of(alloc, arn)?)),
    }
}

// The members of the bundle, before what is referred to is looked up.
#[tactic(auto, using(crate::proofs::Ordered::sets_ordered), unfolding(crate::specs::Bundles::members_of))]
fn members(alloc: Global, v: &Value, path: &Text) -> Result<Bundle, ReadFault>
    ensures ordered { IfOk result (λ bundle. All IsOrderedSet bundle.regex_sets) }
    ensures acl { IfOk result (λ bundle. IsSound bundle.acl) }
    ensures groups { IfOk result (λ bundle. All IsSoundGroup bundle.groups) }
    ensures limits { IfOk result (λ bundle. All (λ top. IsTrue (is_limited_top top.body)) bundle.acl.rules) }
    ensures statements { IfOk result (λ bundle. bundle_count bundle ≤ most_statements) }
    ensures reading { Gives read_faults.Memory (λ bundle. bundle) result (members_of (view v.now) path.now) }
{
    let encoding = encoding(alloc, v, path)?;
    let ip_sets = ip_sets(alloc, v, path)?;
    let regex_sets = regex_sets(alloc, v, path)?;
    let managed = managed_capacities(alloc, v, path)?;
    let mut seen = 0;
    let groups = groups(alloc, regex_sets.as_slice(), encoding, v, path, &mut seen)?;
    let acl = acl(alloc, regex_sets.as_slice(), encoding, v, path, &mut seen)?;
    Ok(Bundle {
        acl,
        groups,
        ip_sets,
        regex_sets,
        managed,
    })
}

// The web ACL, among these pattern sets; `seen` counts the statements that were read.
#[tactic(auto, unfolding(crate::specs::Bundles::acl_at))]
fn acl(
    alloc: Global,
    sets: &[RegexSet],
    encoding: Encoding,
    v: &Value,
    path: &Text,
    seen: &mut u32,
) -> Result<Acl, ReadFault>
    requires few { seen.old ≤ most_statements }
    ensures few { seen.new ≤ most_statements }
    ensures counted { IfOk result (λ acl. seen.old + sum_by (λ top. top_count top.body) acl.rules ≡ seen.new) }
    ensures sound { IfOk result IsSound }
    ensures limited { IfOk result (λ acl. All (λ top. IsTrue (is_limited_top top.body)) acl.rules) }
    ensures reading { Gives read_faults.Memory (λ acl. (acl, seen.new)) result (acl_at sets.now encoding (view v.now) path.now seen.old) }
{
    let found = member(alloc, v, "WebACL", path)?;
    let at = member_path(alloc, path, "WebACL")?;
    acl_among(alloc, found, &at, sets, encoding, seen)
}
