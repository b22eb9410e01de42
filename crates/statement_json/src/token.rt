//! Tokens, which names of headers are.

ghost use Rattle.std.specs.List.{list_all, list_any};
ghost use Rattle.std.specs.Prelude.{◌≡◌, ◌==◌, codes};
ghost use Rattle.waf_model.specs.Within.{is_token as is_token_text, is_token_byte as is_token_letter};

// A letter, a digit or one of !#$%&'*+-.^_`|~.
fn is_token_byte(byte: u8) -> bool
    ensures { result ≡ is_token_letter byte }
{
    (b'A' <= byte && byte <= b'Z')
        || (b'a' <= byte && byte <= b'z')
        || (b'0' <= byte && byte <= b'9')
        || is_token_mark(byte)
}

fn is_token_mark(byte: u8) -> bool
    ensures { result ≡ list_any (λ mark. mark == byte) (codes "!#$%&'*+-.^_`|~") }
{
    b"!#$%&'*+-.^_`|~".iter().any(|mark| *mark == byte)
}

fn has_token_bytes(text: &[u8]) -> bool
    ensures { result ≡ list_all is_token_letter text.now }
{
    text.iter().all(|byte| is_token_byte(*byte))
}

// Whether the text is a token.
pub(crate) fn is_token(text: &[u8]) -> bool
    ensures { result ≡ is_token_text text.now }
{
    1 <= text.len() && has_token_bytes(text)
}
