//! Command lines.

ghost use Rattle.std.specs.Prelude.{◌≡◌, [], ◌∷◌, map, option_map, string_bytes};
ghost use Rattle.wafreview_run.specs.CommandLine.{command_of as command_of_words, is_file_word as file_word};
ghost use Rattle.wafreview_run.specs.CommandView.{command_view};

/// A command with the names of its files.
#[derive(Clone, Copy, Debug)]
pub(crate) enum Command<'a> {
    /// The outcome and the capacity of a bundle's web ACL on a request, under the answers where a file of them is named.
    Evaluate {
        bundle: &'a str,
        request: &'a str,
        answers: Option<&'a str>,
    },
    /// The capacity of a bundle's web ACL.
    Capacity {
        bundle: &'a str,
    },
    /// The keys of the questions that a bundle leaves to answers.
    Keys {
        bundle: &'a str,
    },
    /// Whether two revisions decide alike.
    Review {
        old: &'a str,
        new: &'a str,
    },
    /// Which requests of a log two revisions decide otherwise, under the answers where a file of them is named.
    Impact {
        old: &'a str,
        new: &'a str,
        log: &'a str,
        answers: Option<&'a str>,
    },
}

/// Whether the word is the name of a file: it is not empty and does not begin with `-`.
fn is_file_word(word: &str) -> bool
    ensures { result ≡ file_word word.now }
{
    match word.as_bytes() {
        [] => false,
        [first, ..] => *first != b'-',
    }
}

/// The command that the words are, or none where they are outside the grammar.
pub(crate) fn command_of(words: &[String]) -> Option<Command<'_>>
    ensures { option_map command_view result ≡ command_of_words (map string_bytes words.now) }
{
    match words {
        [word, file] => on_one(word.as_str(), file.as_str()),
        [word, first, second] => on_two(word.as_str(), first.as_str(), second.as_str()),
        [word, first, second, third] => on_three(
            word.as_str(),
            first.as_str(),
            second.as_str(),
            third.as_str(),
        ),
        [word, first, second, third, fourth] => on_four(
            word.as_str(),
            first.as_str(),
            second.as_str(),
            third.as_str(),
            fourth.as_str(),
        ),
        _ => None,
    }
}

/// The command of that name on one file.
fn on_one<'a>(word: &str, file: &'a str) -> Option<Command<'a>>
    ensures { option_map command_view result ≡ command_of_words (word.now ∷ file.now ∷ []) }
{
    if !is_file_word(file) {
        return None;
    }
    match word {
        "capacity" => Some(Command::Capacity { bundle: file }),
        "keys" => Some(Command::Keys { bundle: file }),
        _ => None,
    }
}

/// The command of that name on two files.
fn on_two<'a>(word: &str, first: &'a str, second: &'a str) -> Option<Command<'a>>
    ensures { option_map command_view result ≡ command_of_words (word.now ∷ first.now ∷ second.now ∷ []) }
{
    if !is_file_word(first) || !is_file_word(second) {
        return None;
    }
    match word {
        "evaluate" => Some(Command::Evaluate {
            bundle: first,
            request: second,
            answers: None,
        }),
        "review" => Some(Command::Review {
            old: first,
            new: second,
        }),
        _ => None,
    }
}

/// The command of that name on three files.
fn on_three<'a>(word: &str, first: &'a str, second: &'a str, third: &'a str) -> Option<Command<'a>>
    ensures { option_map command_view result ≡ command_of_words (word.now ∷ first.now ∷ second.now ∷ third.now ∷ []) }
{
    if !is_file_word(first) || !is_file_word(second) || !is_file_word(third) {
        return None;
    }
    match word {
        "evaluate" => Some(Command::Evaluate {
            bundle: first,
            request: second,
            answers: Some(third),
        }),
        "impact" => Some(Command::Impact {
            old: first,
            new: second,
            log: third,
            answers: None,
        }),
        _ => None,
    }
}

/// The command of that name on four files.
fn on_four<'a>(
    word: &str,
    first: &'a str,
    second: &'a str,
    third: &'a str,
    fourth: &'a str,
) -> Option<Command<'a>>
    ensures { option_map command_view result ≡ command_of_words (word.now ∷ first.now ∷ second.now ∷ third.now ∷ fourth.now ∷ []) }
{
    if !is_file_word(first)
        || !is_file_word(second)
        || !is_file_word(third)
        || !is_file_word(fourth)
    {
        return None;
    }
    match word {
        "impact" => Some(Command::Impact {
            old: first,
            new: second,
            log: third,
            answers: Some(fourth),
        }),
        _ => None,
    }
}
