//! Rule groups by their ARN.

ghost use Rattle.std.specs.Prelude.{◌≡◌, option_map};
ghost use Rattle.waf_model.specs.References.{group_of};

use waf_model::{Group, Text};

/// The first rule group of that ARN, if there is one (API type `RuleGroupReferenceStatement`).
pub fn referred_group<'a>(groups: &'a [Group], arn: &Text) -> Option<&'a Group>
    ensures { option_map (λ group. group.now) result ≡ group_of groups.now arn.now }
{
    groups.iter().find(|group| group.arn.bytes() == arn.bytes())
}
