//! Answers to opaque questions: what the evaluation is told and does not work out.

use waf_base::{Items, Text};

/// All answers. Of two with one key the first counts.
#[derive(Debug, Drop)]
pub struct Answers {
    pub statements: Items<StatementAnswer>,
    pub groups: Items<GroupAnswer>,
    pub tokens: Items<TokenAnswer>,
}

/// Whether the opaque statement of that key holds.
#[derive(Debug, Drop)]
pub struct StatementAnswer {
    pub key: Text,
    pub holds: bool,
}

/// What the managed group of that key says, and the labels that it adds.
#[derive(Debug, Drop)]
pub struct GroupAnswer {
    pub key: Text,
    pub verdict: Verdict,
    pub labels: Items<Text>,
}

/// Whether the token of that kind is valid for that immunity time, in seconds.
#[derive(Clone, Copy, Debug, PartialEq, Eq)]
pub struct TokenAnswer {
    pub kind: TokenKind,
    pub immunity: u32,
    pub valid: bool,
}

/// A token's kind and immunity time, in seconds.
#[derive(Clone, Copy, Debug, PartialEq, Eq, PartialOrd, Ord)]
pub struct TokenKey {
    pub kind: TokenKind,
    pub immunity: u32,
}

/// Which action asks for the token.
#[derive(Clone, Copy, Debug, PartialEq, Eq, PartialOrd, Ord)]
pub enum TokenKind {
    Captcha,
    Challenge,
}

/// What a managed group says of a request.
#[derive(Clone, Copy, Debug, PartialEq, Eq)]
pub enum Verdict {
    Nothing,
    Allow,
    Block,
    Captcha,
    Challenge,
}
