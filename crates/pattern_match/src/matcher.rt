//! The places of a pattern.

ghost use Rattle.std.specs.Prelude.{◌≡◌, ℕ, false};
ghost use Rattle.waf_model.specs.Pattern.{has_byte};
ghost use Rattle.pattern_match.specs.Openings.{IsSound, empty_at, may_begin};
ghost use Rattle.pattern_match.specs.Places.{has_place};
ghost use Rattle.pattern_match.specs.declared.place.Place.{Place};

use crate::byte_sets::{has, no_byte};
use crate::opening::Opening;
use crate::place::Place;
use crate::place_set::PlaceSet;
use waf_model::ByteSet;

/// An expression. One that has parts keeps how its matches may begin, so that the question costs the same at each.
#[derive(Drop)]
pub(crate) enum Matcher {
    Nothing,
    Empty,
    OneOf(ByteSet),
    Start,
    End,
    Final,
    /// One after another.
    Both(Box<Matcher>, Box<Matcher>, Opening),
    Either(Box<Matcher>, Box<Matcher>, Opening),
    /// Any number of times, with the bytes that one time can begin with.
    Star(Box<Matcher>, ByteSet),
}

impl Matcher {
    /// The places where it matches the empty text.
    pub(crate) fn empty(&self) -> PlaceSet
        ensures { IsSound self.now → (place : Place) → has_place result place ≡ empty_at self.now place }
    {
        match self {
            Matcher::Nothing => PlaceSet::none(),
            Matcher::Empty => PlaceSet::all(),
            Matcher::OneOf(_) => PlaceSet::none(),
            Matcher::Start => PlaceSet::at_start(),
            Matcher::End => PlaceSet::at_end(),
            Matcher::Final => PlaceSet::at_last(),
            Matcher::Both(_, _, opening) => opening.empty,
            Matcher::Either(_, _, opening) => opening.empty,
            Matcher::Star(_, _) => PlaceSet::all(),
        }
    }

    /// A set that has each byte that a match of one byte or more can begin with.
    pub(crate) fn first(&self) -> ByteSet
        ensures { IsSound self.now → (before : Place) → (byte : ℕ) → has_byte result byte ≡ false → may_begin self.now before byte ≡ false }
    {
        match self {
            Matcher::OneOf(set) => *set,
            Matcher::Both(_, _, opening) => opening.first,
            Matcher::Either(_, _, opening) => opening.first,
            Matcher::Star(_, first) => *first,
            _ => no_byte(),
        }
    }

    /// Whether it matches the empty text at the place.
    pub(crate) fn empty_at(&self, place: Place) -> bool
        ensures { IsSound self.now → result ≡ empty_at self.now place }
    {
        self.empty().has(place)
    }

    /// Whether a match of one byte or more may begin with the byte. If not, none does.
    pub(crate) fn may_begin(&self, byte: u8) -> bool
        ensures { IsSound self.now → result ≡ false → (before : Place) → may_begin self.now before byte ≡ false }
    {
        match self {
            Matcher::OneOf(set) => has(set, byte),
            Matcher::Both(_, _, opening) => has(&opening.first, byte),
            Matcher::Either(_, _, opening) => has(&opening.first, byte),
            Matcher::Star(_, first) => has(first, byte),
            _ => false,
        }
    }
}
