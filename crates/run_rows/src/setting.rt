//! The fields that a row is given behind its words.

/// What a given field says.
#[derive(Clone, Copy)]
pub(crate) enum Setting<'a> {
    /// One more word of the command line.
    Word(&'a str),
    /// A file of that name holds these bytes.
    File { name: &'a [u8], bytes: &'a [u8] },
    /// A file of that name has one byte more than is read.
    TooLong(&'a str),
    /// The numbers, from 0, of the reads that fail.
    ReadsFail(&'a str),
    /// The numbers, from 0, of the writes that fail.
    WritesFail(&'a str),
    /// How many bytes the sink takes in all.
    Room(usize),
    /// How many bytes the sink takes in one write.
    Most(usize),
    /// No read of a file that is there fails.
    SureFiles,
    /// No write fails, and nothing is kept of the text.
    SureSink,
}

/// The number of a setting.
fn size_of(text: &str) -> Option<usize> {
    text.parse().ok()
}

/// What a text without `=` says.
fn named_setting(text: &str) -> Option<Setting<'_>> {
    match text {
        "sure files" => return Some(Setting::SureFiles),
        "sure sink" => return Some(Setting::SureSink),
        _ => {}
    }
    if let Some(name) = text.strip_prefix("too long ") {
        return Some(Setting::TooLong(name));
    }
    if let Some(numbers) = text.strip_prefix("reads fail ") {
        return Some(Setting::ReadsFail(numbers));
    }
    if let Some(numbers) = text.strip_prefix("writes fail ") {
        return Some(Setting::WritesFail(numbers));
    }
    if let Some(size) = text.strip_prefix("room ") {
        return Some(Setting::Room(size_of(size)?));
    }
    Some(Setting::Most(size_of(text.strip_prefix("most ")?)?))
}

/// What the field says, or nothing where it is none of these.
pub(crate) fn setting_of(field: &[u8]) -> Option<Setting<'_>> {
    if let [b'+', word @ ..] = field {
        return Some(Setting::Word(std::str::from_utf8(word).ok()?));
    }
    let mut parts = field.splitn(2, |byte| *byte == b'=');
    let name = parts.next()?;
    match parts.next() {
        Some(bytes) => Some(Setting::File { name, bytes }),
        None => named_setting(std::str::from_utf8(name).ok()?),
    }
}
