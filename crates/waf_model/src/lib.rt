//! The types of a web ACL, a request and the answers to opaque questions, as the AWS WAFV2 API names them.
#![tactic(auto)]

mod action;
mod address;
mod answers;
mod bundle;
mod context;
mod field;
mod group;
mod matching;
mod outcome;
mod pattern;
mod place;
mod read_fault;
mod request;
mod rule;
mod sets;
mod statement;
mod transform;
mod web_acl;

pub use action::{Action, Decision};
pub use address::{Address, Cidr};
pub use answers::{
    Answers, GroupAnswer, StatementAnswer, TokenAnswer, TokenKey, TokenKind, Verdict,
};
pub use bundle::Bundle;
pub use context::Context;
pub use field::{Field, Filter, Oversize, Part};
pub use group::{Group, ManagedCapacity};
pub use matching::{Compare, Forwarded, ForwardedPosition, LabelScope, Position};
pub use outcome::{Capacity, Ender, Outcome};
pub use pattern::{ByteSet, Pattern};
pub use place::Place;
pub use read_fault::ReadFault;
pub use request::{Header, Request};
pub use rule::{GroupUse, ManagedUse, Override, Rule, Top, TopRule};
pub use sets::{IpSet, RegexSet};
pub use statement::Statement;
pub use transform::Transform;
pub use waf_base::{Boxed, Items, Memory, Text};
pub use web_acl::Acl;
