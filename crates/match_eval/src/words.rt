//! Search strings that stand in a text as words.

ghost use Rattle.std.specs.Prelude.{◌≡◌, ◌≤◌, ◌↔◌, IsTrue, length};
ghost use Rattle.match_eval.specs.Standing.{BeginsWithWord, IsWordAt};
ghost use Rattle.waf_model.specs.Passes.{BeginsOutside, EndsOutside, is_word_byte};

/// Whether the byte is one of A-Z, a-z, 0-9 or `_`.
fn is_word(byte: u8) -> bool
    ensures { result ≡ is_word_byte byte }
{
    (b'A' <= byte && byte <= b'Z')
        || (b'a' <= byte && byte <= b'z')
        || (b'0' <= byte && byte <= b'9')
        || byte == b'_'
}

/// Whether the text is empty or ends in a byte outside of words.
fn ends_outside(text: &[u8]) -> bool
    ensures { IsTrue result ↔ EndsOutside text.now }
{
    match text.split_last() {
        None => true,
        Some((last, _)) => !is_word(*last),
    }
}

/// Whether the text is empty or begins with a byte outside of words.
fn begins_outside(text: &[u8]) -> bool
    ensures { IsTrue result ↔ BeginsOutside text.now }
{
    match text.split_first() {
        None => true,
        Some((first, _)) => !is_word(*first),
    }
}

/// Whether the text begins with the search string, and what follows is empty or begins with a byte outside of words.
fn begins_with_word(search: &[u8], text: &[u8]) -> bool
    ensures { IsTrue result ↔ BeginsWithWord search.now text.now }
{
    match text.strip_prefix(search) {
        None => false,
        Some(rest) => begins_outside(rest),
    }
}

/// Whether the search string stands in the text as a word behind so many bytes.
pub(crate) fn is_word_at(search: &[u8], text: &[u8], at: usize) -> bool
    requires { at ≤ length text.now }
    ensures { IsTrue result ↔ IsWordAt search.now text.now at }
{
    let (front, rest) = text.split_at(at);
    ends_outside(front) && begins_with_word(search, rest)
}
