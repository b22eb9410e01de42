//! A web ACL with all that it refers to.

use crate::group::{Group, ManagedCapacity};
use crate::sets::{IpSet, RegexSet};
use crate::web_acl::Acl;
use waf_base::Items;

/// A web ACL, and the rule groups, sets and capacities that it refers to. Of several elements with one ARN the first
/// counts.
#[derive(Debug, Drop)]
pub struct Bundle {
    pub acl: Acl,
    pub groups: Items<Group>,
    pub ip_sets: Items<IpSet>,
    pub regex_sets: Items<RegexSet>,
    pub managed: Items<ManagedCapacity>,
}
