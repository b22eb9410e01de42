//! Sets of places, by what is known of a place.

ghost use Rattle.std.specs.Prelude.{◌≡◌, ◌≤◌, ◌&&◌, ◌||◌, false, true, if◌then◌else◌};
ghost use Rattle.pattern_match.specs.declared.place.Place.{Place};
ghost use Rattle.pattern_match.specs.Places.{place_number, has_place};

use crate::place::Place;

/// A set of places: bit `n` of the mask for the places of the number `n`.
#[derive(Clone, Copy)]
pub(crate) struct PlaceSet {
    mask: u8,
}

/// What a fact adds to the number of a place.
fn worth(fact: bool, bit: u8) -> u8
    ensures is { result ≡ (if fact then bit else 0) }
    ensures within { result ≤ bit }
{
    if fact { bit } else { 0 }
}

/// The number of the places of which the same is known: one of eight.
fn number_of(place: Place) -> u8
    ensures is { result ≡ place_number place }
    ensures within { result ≤ 7 }
{
    worth(place.start, 1) + worth(place.end, 2) + worth(place.last, 4)
}

impl PlaceSet {
    /// The set of no place.
    pub(crate) fn none() -> PlaceSet
        ensures { (place : Place) → has_place result place ≡ false }
    {
        PlaceSet { mask: 0 }
    }

    /// The set of every place.
    pub(crate) fn all() -> PlaceSet
        ensures { (place : Place) → has_place result place ≡ true }
    {
        PlaceSet { mask: 0b1111_1111 }
    }

    /// The places at the start.
    pub(crate) fn at_start() -> PlaceSet
        ensures { (place : Place) → has_place result place ≡ place.start }
    {
        PlaceSet { mask: 0b1010_1010 }
    }

    /// The places at the very end.
    pub(crate) fn at_end() -> PlaceSet
        ensures { (place : Place) → has_place result place ≡ place.end }
    {
        PlaceSet { mask: 0b1100_1100 }
    }

    /// The places at the very end or before one final line feed.
    pub(crate) fn at_last() -> PlaceSet
        ensures { (place : Place) → has_place result place ≡ place.last }
    {
        PlaceSet { mask: 0b1111_0000 }
    }

    /// Whether no place is in the set.
    pub(crate) fn is_none(self) -> bool
        ensures { result ≡ true → (place : Place) → has_place self place ≡ false }
    {
        self.mask == 0
    }

    /// Whether the place is in the set.
    pub(crate) fn has(self, place: Place) -> bool
        ensures { result ≡ has_place self place }
    {
        (self.mask >> number_of(place)) & 1 == 1
    }

    /// The places that are in both sets.
    pub(crate) fn intersection(self, other: PlaceSet) -> PlaceSet
        ensures { (place : Place) → has_place result place ≡ (has_place self place && has_place other place) }
    {
        PlaceSet {
            mask: self.mask & other.mask,
        }
    }

    /// The places that are in one of the sets.
    pub(crate) fn union(self, other: PlaceSet) -> PlaceSet
        ensures { (place : Place) → has_place result place ≡ (has_place self place || has_place other place) }
    {
        PlaceSet {
            mask: self.mask | other.mask,
        }
    }
}
