//! The places of a text.

ghost use Rattle.std.specs.Prelude.{◌≤◌, length};

/// A place of the text.
#[derive(Clone, Copy)]
pub(crate) struct Place {
    /// It is the start.
    pub(crate) start: bool,
    /// It is the very end.
    pub(crate) end: bool,
    /// It is the very end, or one final line feed stands behind it.
    pub(crate) last: bool,
}

impl Place {
    ghost use Rattle.pattern_match.specs.Places.{IsPlace};

    /// The place behind so many bytes of the text.
    pub(crate) fn of(text: &[u8], at: usize) -> Place
        requires { at ≤ length text.now }
        ensures { IsPlace text.now at result }
    {
        let end = at == text.len();
        Place {
            start: at == 0,
            end,
            last: end || at + 1 == text.len() && text[at] == b'\n',
        }
    }
}

/// A step from one place of the text to the next.
#[derive(Clone, Copy)]
pub(crate) struct Step {
    /// The place that it leaves.
    pub(crate) before: Place,
    /// The byte that it goes over.
    pub(crate) byte: u8,
    /// The place that it comes to.
    pub(crate) place: Place,
}
