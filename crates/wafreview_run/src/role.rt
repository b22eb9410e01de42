//! What a file of a command line is.

ghost use Rattle.std.specs.Prelude.{◌≡◌};
ghost use Rattle.wafreview_run.specs.Texts.{role_name};

/// What a named file is.
#[derive(Clone, Copy, Debug, PartialEq, Eq)]
pub enum Role {
    Bundle,
    Request,
    Answers,
    Old,
    New,
    Log,
}

/// The role's name, as it is printed.
pub(crate) fn role_word(role: Role) -> &'static str
    ensures { result.now ≡ role_name role }
{
    match role {
        Role::Bundle => "bundle",
        Role::Request => "request",
        Role::Answers => "answers",
        Role::Old => "old",
        Role::New => "new",
        Role::Log => "log",
    }
}
