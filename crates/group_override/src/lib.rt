//! Which action each rule of a rule group has where a web ACL refers to the group.
#![tactic(auto)]

mod overriding;
mod referred;

pub use overriding::{effective, effective_action};
pub use referred::referred_group;
