//! The matcher of a pattern.

ghost use Rattle.std.specs.Prelude.{IfOk, map, None};
ghost use Rattle.waf_model.specs.Pattern.{Expression, expression, all_of, any_of, both, either, repeat};
ghost use Rattle.pattern_match.specs.Shapes.{IsMatcherOf, copies, up_to, repeated, unrolled};

use crate::matcher::Matcher;
use crate::opening::Opening;
use std::alloc::Global;
use waf_model::{Memory, Pattern};

/// One after another.
fn join(alloc: Global, first: Matcher, second: Matcher) -> Result<Matcher, Memory>
    ensures { IfOk result (λ m. (a : Expression) → (b : Expression) → IsMatcherOf a first → IsMatcherOf b second → IsMatcherOf (both a b) m) }
{
    let opening = Opening::of_both(&first, &second);
    Ok(Matcher::Both(Box::new(alloc, first)?, Box::new(alloc, second)?, opening))
}

/// One or the other.
fn fork(alloc: Global, first: Matcher, second: Matcher) -> Result<Matcher, Memory>
    ensures { IfOk result (λ m. (a : Expression) → (b : Expression) → IsMatcherOf a first → IsMatcherOf b second → IsMatcherOf (either a b) m) }
{
    let opening = Opening::of_either(&first, &second);
    Ok(Matcher::Either(Box::new(alloc, first)?, Box::new(alloc, second)?, opening))
}

/// Any number of times.
fn star(alloc: Global, inner: Matcher) -> Result<Matcher, Memory>
    ensures { IfOk result (λ m. (a : Expression) → IsMatcherOf a inner → IsMatcherOf (repeat a 0 None) m) }
{
    let first = inner.first();
    Ok(Matcher::Star(Box::new(alloc, inner)?, first))
}

/// The matcher of the pattern.
#[cycle(build)]
pub(crate) fn matcher_of(alloc: Global, p: &Pattern) -> Result<Matcher, Memory>
    ensures { IfOk result (IsMatcherOf (unrolled (expression p.now))) }
{
    match p {
        Pattern::Empty => Ok(Matcher::Empty),
        Pattern::Set(set) => Ok(Matcher::OneOf(*set)),
        Pattern::Start => Ok(Matcher::Start),
        Pattern::End => Ok(Matcher::End),
        Pattern::Final => Ok(Matcher::Final),
        Pattern::Seq(parts) => sequence(alloc, parts.as_slice()),
        Pattern::Alt(parts) => choice(alloc, parts.as_slice()),
        Pattern::Repeat { inner, least, most } => repetition(alloc, inner.get(), *least, *most),
    }
}

/// The matcher of the parts one after another.
#[cycle(build)]
fn sequence(alloc: Global, parts: &[Pattern]) -> Result<Matcher, Memory>
    ensures { IfOk result (IsMatcherOf (unrolled (all_of (map expression parts.now)))) }
{
    let mut matcher = Matcher::Empty;
    let mut rest = parts.len();
    while rest > 0 {
        rest -= 1;
        matcher = join(alloc, matcher_of(alloc, &parts[rest])?, matcher)?;
    }
    Ok(matcher)
}

/// The matcher of one of the parts.
#[cycle(build)]
fn choice(alloc: Global, parts: &[Pattern]) -> Result<Matcher, Memory>
    ensures { IfOk result (IsMatcherOf (unrolled (any_of (map expression parts.now)))) }
{
    let mut matcher = Matcher::Nothing;
    let mut rest = parts.len();
    while rest > 0 {
        rest -= 1;
        matcher = fork(alloc, matcher_of(alloc, &parts[rest])?, matcher)?;
    }
    Ok(matcher)
}

/// The matcher of a repetition: of nothing where it is to come more often at least than at most.
#[cycle(build)]
fn repetition(
    alloc: Global,
    inner: &Pattern,
    least: u32,
    most: Option<u32>,
) -> Result<Matcher, Memory>
    ensures { IfOk result (IsMatcherOf (repeated (unrolled (expression inner.now)) least most)) }
{
    match most {
        None => {
            let rest = star(alloc, matcher_of(alloc, inner)?)?;
            copied(alloc, inner, least, rest)
        }
        Some(most) => {
            if most < least {
                return Ok(Matcher::Nothing);
            }
            let rest = optional(alloc, inner, most - least)?;
            copied(alloc, inner, least, rest)
        }
    }
}

/// The matcher of so many copies at most.
#[cycle(build)]
fn optional(alloc: Global, inner: &Pattern, count: u32) -> Result<Matcher, Memory>
    ensures { IfOk result (IsMatcherOf (up_to count (unrolled (expression inner.now)))) }
{
    let mut matcher = Matcher::Empty;
    for _ in 0..count {
        let copy = matcher_of(alloc, inner)?;
        matcher = fork(alloc, Matcher::Empty, join(alloc, copy, matcher)?)?;
    }
    Ok(matcher)
}

/// The matcher of so many copies, and of what follows them.
#[cycle(build)]
fn copied(alloc: Global, inner: &Pattern, count: u32, rest: Matcher) -> Result<Matcher, Memory>
    ensures { IfOk result (λ m. (b : Expression) → IsMatcherOf b rest → IsMatcherOf (copies count (unrolled (expression inner.now)) b) m) }
{
    let mut matcher = rest;
    for _ in 0..count {
        matcher = join(alloc, matcher_of(alloc, inner)?, matcher)?;
    }
    Ok(matcher)
}
