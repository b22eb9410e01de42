//! The alphabets of names and labels.

ghost use Rattle.std.specs.List.{list_all};
ghost use Rattle.std.specs.Prelude.{◌≡◌};
ghost use Rattle.waf_model.specs.Letters.{is_label as is_label_text, is_label_byte as is_label_letter, is_name as is_name_text, is_name_byte as is_name_letter};

fn is_name_byte(byte: u8) -> bool
    ensures { result ≡ is_name_letter byte }
{
    (b'A' <= byte && byte <= b'Z')
        || (b'a' <= byte && byte <= b'z')
        || (b'0' <= byte && byte <= b'9')
        || byte == b'_'
        || byte == b'-'
}

fn is_label_byte(byte: u8) -> bool
    ensures { result ≡ is_label_letter byte }
{
    is_name_byte(byte) || byte == b':'
}

// Whether each byte may stand in a name.
fn has_name_bytes(text: &[u8]) -> bool
    ensures { result ≡ list_all is_name_letter text.now }
{
    text.iter().all(|byte| is_name_byte(*byte))
}

// Whether each byte may stand in a label.
fn has_label_bytes(text: &[u8]) -> bool
    ensures { result ≡ list_all is_label_letter text.now }
{
    text.iter().all(|byte| is_label_byte(*byte))
}

/// Whether this is a name: 1 to 128 of A-Z, a-z, 0-9, `_` and `-`.
pub fn is_name(text: &[u8]) -> bool
    ensures { result ≡ is_name_text text.now }
{
    1 <= text.len() && text.len() <= 128 && has_name_bytes(text)
}

/// Whether this is a label or a key of labels: 1 to 1,024 of A-Z, a-z, 0-9, `_`, `-` and `:`.
pub fn is_label(text: &[u8]) -> bool
    ensures { result ≡ is_label_text text.now }
{
    1 <= text.len() && text.len() <= 1024 && has_label_bytes(text)
}
