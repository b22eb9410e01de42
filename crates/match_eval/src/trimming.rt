//! Texts without the blanks around them.

ghost use Rattle.std.specs.List.{prefix_len};
ghost use Rattle.std.specs.Prelude.{◌≡◌, ◌≤◌, length, reverse};
ghost use Rattle.waf_model.specs.ForwardedAddress.{is_blank as is_blank_byte, trimmed as trimmed_text, without_front as without_leading};

/// The text without the spaces and tabs at both ends; `trim_ascii` would take line ends and form feeds too (RFC 9110,
/// `OWS`).
pub(crate) fn trimmed(text: &[u8]) -> &[u8]
    ensures { result.now ≡ trimmed_text text.now }
{
    without_back(without_front(text))
}

fn without_front(text: &[u8]) -> &[u8]
    ensures { result.now ≡ without_leading text.now }
{
    &text[leading_blanks(text)..]
}

#[tactic(auto, using(crate::proofs::TextEnds::back_is))]
fn without_back(text: &[u8]) -> &[u8]
    ensures { result.now ≡ reverse (without_leading (reverse text.now)) }
{
    &text[..text.len() - trailing_blanks(text)]
}

/// How many blanks the text begins with.
fn leading_blanks(text: &[u8]) -> usize
    ensures value { result ≡ prefix_len is_blank_byte text.now }
    ensures within { result ≤ length text.now }
{
    text.iter().take_while(|byte| is_blank(**byte)).count()
}

/// How many blanks the text ends with.
fn trailing_blanks(text: &[u8]) -> usize
    ensures value { result ≡ prefix_len is_blank_byte (reverse text.now) }
    ensures within { result ≤ length text.now }
{
    text.iter()
        .rev()
        .take_while(|byte| is_blank(**byte))
        .count()
}

fn is_blank(byte: u8) -> bool
    ensures { result ≡ is_blank_byte byte }
{
    byte == b' ' || byte == b'\t'
}
