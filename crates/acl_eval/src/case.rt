//! What an evaluation is about, and how it ends.

use waf_model::{Answers, Bundle, Decision, Ender, Request};

/// A bundle, a request and answers.
#[derive(Clone, Copy, Debug)]
pub(crate) struct Case<'a> {
    pub(crate) bundle: &'a Bundle,
    pub(crate) request: &'a Request,
    pub(crate) answers: &'a Answers,
}

/// How a rule ended the evaluation.
#[derive(Debug, Drop)]
pub(crate) struct End {
    pub(crate) decision: Decision,
    pub(crate) ender: Ender,
}
