//! Texts that are cut at a byte.

ghost use Rattle.std.specs.Prelude.{◌≡◌, ◌==◌, option_map, position};
ghost use Rattle.waf_model.specs.Pieces.{split_once};

/// What stands before the first such byte and what stands after it, if there is one.
pub(crate) fn cut_once(byte: u8, text: &[u8]) -> Option<(&[u8], &[u8])>
    ensures { option_map (λ parts. (parts.0.now, parts.1.now)) result ≡ split_once byte text.now }
{
    match place_of(byte, text) {
        Some(place) if place < text.len() => Some((&text[..place], &text[place + 1..])),
        _ => None,
    }
}

/// The place of the first such byte, if there is one.
fn place_of(byte: u8, text: &[u8]) -> Option<usize>
    ensures { result ≡ position (λ b. b == byte) text.now }
{
    text.iter().position(|b| *b == byte)
}
