//! Address sets.

ghost use Rattle.json_view.specs.Words.{each_from, meaning};
ghost use Rattle.serde_json.specs.View.{view};
ghost use Rattle.set_json.specs.Sets.{ip_set_of, range_at, ranges_at, ranges_of as ranges_in, version_at, version_words};
ghost use Rattle.std.specs.Prelude.{◌≡◌, map};
ghost use Rattle.waf_model.specs.Gives.{Gives};
ghost use Rattle.waf_model.specs.declared.read_fault.ReadFault.TheVariants as read_faults;

use ip_text::read_cidr;
use json_view::{copy_of, index_path, list_member, member_path, text, text_member, within_limit};
use serde_json::Value;
use statement_json::arn;
use std::alloc::Global;
use waf_model::{Cidr, IpSet, Items, ReadFault, Text};

// An address set has at most so many addresses.
const MOST_ADDRESSES: u32 = 10_000;

/// The address set of that value (API type `IPSet`).
#[tactic(auto, unfolding(crate::specs::Sets::ip_set_of))]
pub(crate) fn ip_set(alloc: Global, v: &Value, path: &Text) -> Result<IpSet, ReadFault>
    ensures { Gives read_faults.Memory (λ set. set) result (ip_set_of (view v.now) path.now) }
{
    let arn = arn(alloc, v, path)?;
    let v6 = version(alloc, v, path)?;
    let ranges = ranges(alloc, v6, v, path)?;
    Ok(IpSet { arn, ranges })
}

// Whether the addresses are of IPv6.
#[tactic(auto, unfolding(crate::specs::Sets::version_at))]
fn version(alloc: Global, v: &Value, path: &Text) -> Result<bool, ReadFault>
    ensures { Gives read_faults.Memory (λ v6. v6) result (version_at (view v.now) path.now) }
{
    let word = text_member(alloc, v, "IPAddressVersion", path)?;
    match version_of(word) {
        Some(v6) => Ok(v6),
        None => Err(ReadFault::Name(member_path(alloc, path, "IPAddressVersion")?)),
    }
}

// What the word for a version means.
fn version_of(word: &str) -> Option<bool>
    ensures { result ≡ meaning version_words word.now }
{
    if word == "IPV4" {
        Some(false)
    } else if word == "IPV6" {
        Some(true)
    } else {
        None
    }
}

// The ranges of addresses of that version.
#[tactic(auto, unfolding(crate::specs::Sets::ranges_at))]
fn ranges(alloc: Global, v6: bool, v: &Value, path: &Text) -> Result<Items<Cidr>, ReadFault>
    ensures { Gives read_faults.Memory (λ ranges. ranges) result (ranges_at v6 (view v.now) path.now) }
{
    let all = list_member(alloc, v, "Addresses", path)?;
    let at = member_path(alloc, path, "Addresses")?;
    let ranges = ranges_of(alloc, v6, all, &at)?;
    Ok(ranges)
}

// The ranges of a list that isn't too long.
fn ranges_of(alloc: Global, v6: bool, all: &[Value], path: &Text) -> Result<Items<Cidr>, ReadFault>
    ensures { Gives read_faults.Memory (λ ranges. ranges) result (ranges_in v6 (map view all.now) path.now) }
{
    within_limit(alloc, all, MOST_ADDRESSES, path)?;
    let ranges = each_range(alloc, v6, all, path)?;
    Ok(ranges)
}

fn each_range(alloc: Global, v6: bool, all: &[Value], path: &Text) -> Result<Items<Cidr>, ReadFault>
    ensures { Gives read_faults.Memory (λ ranges. ranges) result (each_from (range_at v6) 0 (map view all.now) path.now) }
{
    let mut ranges = Items::new(alloc);
    let mut index: u64 = 0;
    for found in all {
        let at = index_path(alloc, path, index)?;
        ranges.push(range(alloc, v6, found, &at)?)?;
        index += 1;
    }
    Ok(ranges)
}

// A range of addresses of that version.
fn range(alloc: Global, v6: bool, v: &Value, path: &Text) -> Result<Cidr, ReadFault>
    ensures { Gives read_faults.Memory (λ range. range) result (range_at v6 (view v.now) path.now) }
{
    let found = text(alloc, v, path)?;
    match read_cidr(v6, found.as_bytes()) {
        Some(range) => Ok(range),
        None => Err(ReadFault::Address(copy_of(alloc, path)?)),
    }
}
