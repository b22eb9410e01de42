//! Where a search string stands in a text.

ghost use Rattle.std.specs.Prelude.{◌↔◌, IsTrue};
ghost use Rattle.waf_model.specs.Passes.{Stands};
ghost use Rattle.waf_model.specs.declared.matching.Position.TheVariants as positions;

use crate::words::is_word_at;
use memchr::memmem;
use waf_model::Position;

/// Whether the search string stands in the text so (API field `PositionalConstraint`).
pub(crate) fn stands(position: Position, search: &[u8], text: &[u8]) -> bool
    ensures { IsTrue result ↔ Stands position search.now text.now }
{
    match position {
        Position::Exactly => is_same(search, text),
        Position::Starts => begins(search, text),
        Position::Ends => ends(search, text),
        Position::Contains => contains(search, text),
        Position::Word => contains_word(search, text),
    }
}

/// Whether the text is the search string.
fn is_same(search: &[u8], text: &[u8]) -> bool
    ensures { IsTrue result ↔ Stands positions.Exactly search.now text.now }
{
    text == search
}

/// Whether the text begins with the search string.
fn begins(search: &[u8], text: &[u8]) -> bool
    ensures { IsTrue result ↔ Stands positions.Starts search.now text.now }
{
    text.starts_with(search)
}

/// Whether the text ends with the search string.
fn ends(search: &[u8], text: &[u8]) -> bool
    ensures { IsTrue result ↔ Stands positions.Ends search.now text.now }
{
    text.ends_with(search)
}

/// Whether the search string stands anywhere in the text.
fn contains(search: &[u8], text: &[u8]) -> bool
    ensures { IsTrue result ↔ Stands positions.Contains search.now text.now }
{
    memmem::find(text, search).is_some()
}

/// Whether the search string stands anywhere in the text as a word.
fn contains_word(search: &[u8], text: &[u8]) -> bool
    ensures { IsTrue result ↔ Stands positions.Word search.now text.now }
{
    for at in 0..text.len() + 1 {
        if is_word_at(search, text, at) {
            return true;
        }
    }
    false
}
