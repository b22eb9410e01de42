//! Where a rule stands.

/// A rule, by its index in its list, which is by ascending priority (and not by its index in the file): in the rules of the
/// web ACL where `group` is None, and otherwise in those of the rule group that has this index in the bundle.
#[derive(Clone, Copy, Debug, PartialEq, Eq)]
pub struct Place {
    pub group: Option<u32>,
    pub rule: u32,
}
