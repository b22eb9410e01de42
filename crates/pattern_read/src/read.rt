//! From the text of a pattern to the pattern.

ghost use Rattle.std.specs.Prelude.{◌≡◌, ℕ, List, IfOk, IsTrue, MatchOption};
ghost use Rattle.waf_model.specs.PatternGrammar.{folds, unfolded, Spells};
ghost use Rattle.waf_model.specs.PatternOrder.{is_ordered};
ghost use Rattle.waf_model.specs.declared.pattern.Pattern.{Pattern};
ghost use Rattle.pattern_read.specs.Machine.{Arrives, first};
ghost use Rattle.pattern_read.specs.Spelled.{pattern_spelled};
ghost use Rattle.pattern_read.specs.declared.state.State.{State};

use crate::group::Group;
use crate::lex::next_piece;
use crate::singles::{after, begins};
use crate::state::{State, state_after};
use std::alloc::Global;
use waf_model::{Items, Memory, Pattern};

/// A pattern has so many places at most.
const MOST_PLACES: u32 = 2_000;

/// The text begins `(?i)`.
fn is_folded(text: &[u8]) -> bool
    ensures { result ≡ folds text.now }
{
    let second = after(text);
    let third = after(second);
    begins(b'(', text) && begins(b'?', second) && begins(b'i', third) && begins(b')', after(third))
}

/// What follows `(?i)`, where the text begins so.
fn body(text: &[u8]) -> &[u8]
    ensures { result.now ≡ unfolded text.now }
{
    if is_folded(text) {
        after(after(after(after(text))))
    } else {
        text
    }
}

/// The state after all pieces of the text, or nothing where it can't be cut into pieces that follow one another.
fn state_of(alloc: Global, fold: bool, text: &[u8]) -> Result<Option<State>, Memory>
    ensures { IfOk result (λ found. MatchOption found ((to : State) → Arrives fold text.now first to → ⊥) (λ state. Arrives fold text.now first state × ((to : State) → Arrives fold text.now first to → to ≡ state))) }
{
    let mut state = State {
        outer: Items::new(alloc),
        group: Group::new(alloc),
    };
    let mut rest = text;
    while !rest.is_empty() {
        let Some((piece, next)) = next_piece(alloc, fold, rest)? else {
            return Ok(None);
        };
        let Some(moved) = state_after(alloc, state, piece)? else {
            return Ok(None);
        };
        state = moved;
        rest = next;
    }
    Ok(Some(state))
}

/// The pattern that the text of a regular expression spells, or nothing where it spells none within the bounds: counts
/// of at most 100, at most 2,000 places, groups nested 100 deep at most. The subset of the syntax and its meaning are
/// this project's own, after the AWS WAF Developer Guide. It fails only for want of memory.
pub fn read_pattern(alloc: Global, text: &[u8]) -> Result<Option<Pattern>, Memory>
    ensures grammar { IfOk result (λ found. MatchOption found ((pattern : Pattern) → Spells text.now pattern → ⊥) (Spells text.now)) }
    ensures spelled { IfOk result (λ found. found ≡ pattern_spelled text.now) }
{
    let Some(state) = state_of(alloc, is_folded(text), body(text))? else {
        return Ok(None);
    };
    let State { outer, group } = state;
    if !outer.is_empty() {
        return Ok(None);
    }
    let whole = group.close()?;
    if whole.places > MOST_PLACES {
        return Ok(None);
    }
    Ok(Some(whole.pattern))
}

/// The pattern that a text spells, as a function, is the one of the grammar.
pub fn pattern_is_spelled()
    ensures { (text : List ℕ) → MatchOption (pattern_spelled text) ((pattern : Pattern) → Spells text pattern → ⊥) (Spells text) }
{}

/// A text spells one pattern at most.
pub fn one_spelling()
    ensures { (text : List ℕ) (a : Pattern) (b : Pattern) → Spells text a → Spells text b → a ≡ b }
{}

/// The pattern that a text spells has no repetition whose `most` is less than its `least`.
pub fn spelled_is_ordered()
    ensures { (text : List ℕ) (pattern : Pattern) → Spells text pattern → IsTrue (is_ordered pattern) }
{}
