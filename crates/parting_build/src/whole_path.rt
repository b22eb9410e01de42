//! Which byte matches ask for the whole path as it stands.

ghost use Rattle.std.specs.Prelude.{◌≡◌};
ghost use Rattle.parting_build.specs.WholePath.{is_whole_path as whole_path_test, keeps_all};
ghost use Rattle.std.specs.List.{list_all};

use waf_model::{Field, Position, Transform};

/// Whether a byte match with these parts is one of the whole path: EXACTLY on `UriPath`, whose transformations are all
/// NONE.
pub(crate) fn is_whole_path(field: &Field, transforms: &[Transform], position: Position) -> bool
    ensures { result ≡ whole_path_test field.now transforms.now position }
{
    matches!(field, Field::UriPath) && matches!(position, Position::Exactly) && keep_all(transforms)
}

/// Whether the transformations are all NONE.
fn keep_all(transforms: &[Transform]) -> bool
    ensures { result ≡ list_all keeps_all transforms.now }
{
    transforms
        .iter()
        .all(|transform| matches!(transform, Transform::KeepAll))
}
