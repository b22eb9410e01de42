//! The lines of a log, one after another.

ghost use Rattle.std.specs.List.{position_or_len};
ghost use Rattle.std.specs.Prelude.{◌≡◌, ◌≤◌, ◌==◌, ◌∷◌, length};
ghost use Rattle.impact_replay.specs.Lines.{lines_left};
ghost use Rattle.waf_model.specs.Pieces.{cut};

/// The first line of a text, and what stands behind the newline byte that ends it, if one does.
#[derive(Clone, Copy)]
pub(crate) struct FirstLine<'a> {
    pub(crate) line: &'a [u8],
    pub(crate) behind: Option<&'a [u8]>,
}

/// How many bytes stand before the first newline byte.
fn line_length(text: &[u8]) -> usize
    ensures value { result ≡ position_or_len (λ b. b == 10) text.now }
    ensures within { result ≤ length text.now }
{
    text.iter().take_while(|b| **b != b'\n').count()
}

/// The first line of the text, without its newline byte.
#[tactic(auto, using(crate::proofs::Cut::cut_whole, crate::proofs::Cut::cut_first, std::proofs::lemmas::List::take_rest))]
pub(crate) fn first_line(text: &[u8]) -> FirstLine<'_>
    ensures { cut 10 text.now ≡ result.line.now ∷ lines_left result.behind }
{
    let end = line_length(text);
    if end == text.len() {
        return FirstLine {
            line: text,
            behind: None,
        };
    }
    FirstLine {
        line: &text[..end],
        behind: Some(&text[end + 1..]),
    }
}
