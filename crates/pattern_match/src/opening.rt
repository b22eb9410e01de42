//! How matches of an expression may begin, whatever the text.

ghost use Rattle.std.specs.Prelude.{◌≡◌, ℕ, ◌&&◌, ◌||◌, false};
ghost use Rattle.waf_model.specs.Pattern.{has_byte};
ghost use Rattle.pattern_match.specs.Openings.{IsOpening, IsSound, empty_at, may_begin};
ghost use Rattle.pattern_match.specs.Places.{has_place};
ghost use Rattle.pattern_match.specs.declared.place.Place.{Place};

use crate::byte_sets::union;
use crate::matcher::Matcher;
use crate::place_set::PlaceSet;
use waf_model::ByteSet;

/// How matches of an expression may begin.
#[derive(Clone, Copy)]
pub(crate) struct Opening {
    /// The places where it matches the empty text.
    pub(crate) empty: PlaceSet,
    /// Each byte that a longer match can begin with is in the set.
    pub(crate) first: ByteSet,
}

impl Opening {
    /// The opening of one after another.
    pub(crate) fn of_both(first: &Matcher, second: &Matcher) -> Opening
        ensures { IsSound first.now → IsSound second.now → IsOpening (λ place. empty_at first.now place && empty_at second.now place) (λ before byte. may_begin first.now before byte || (empty_at first.now before && may_begin second.now before byte)) result }
    {
        let empty = first.empty();
        Opening {
            empty: empty.intersection(second.empty()),
            first: first_of_both(first, second, empty),
        }
    }

    /// The opening of one or the other.
    pub(crate) fn of_either(first: &Matcher, second: &Matcher) -> Opening
        ensures { IsSound first.now → IsSound second.now → IsOpening (λ place. empty_at first.now place || empty_at second.now place) (λ before byte. may_begin first.now before byte || may_begin second.now before byte) result }
    {
        Opening {
            empty: first.empty().union(second.empty()),
            first: union(first.first(), second.first()),
        }
    }
}

/// The bytes that one after another can begin with, where the first matches the empty text at these places.
fn first_of_both(first: &Matcher, second: &Matcher, empty: PlaceSet) -> ByteSet
    requires { IsSound first.now → (place : Place) → has_place empty place ≡ empty_at first.now place }
    ensures { IsSound first.now → IsSound second.now → (before : Place) → (byte : ℕ) → has_byte result byte ≡ false → (may_begin first.now before byte || (empty_at first.now before && may_begin second.now before byte)) ≡ false }
{
    if empty.is_none() {
        first.first()
    } else {
        union(first.first(), second.first())
    }
}
