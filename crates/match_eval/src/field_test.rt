//! The test of the texts that a field shows.

ghost use Rattle.std.specs.Prelude.{◌≡◌, ◌↔◌, IfOk, IsTrue, map};
ghost use Rattle.match_eval.specs.Asked.{test_of};
ghost use Rattle.match_eval.specs.Meeting.{TestHolds};
ghost use Rattle.waf_model.specs.Holds.{SomePasses, oversize_of as oversize_in};
ghost use Rattle.waf_model.specs.Transformed.{transform_all};

use crate::text_test::{Asked, some_passes};
use request_parts::{oversized, parts};
use std::alloc::Global;
use text_transform::apply_all;
use waf_model::{Field, Items, Memory, Oversize, Request, Text, Transform};

/// Whether the test of the field holds of the request, of whose body at most `body_limit` bytes are looked at. It fails
/// only for want of memory.
pub(crate) fn field_holds(
    alloc: Global,
    asked: &Asked<'_>,
    field: &Field,
    transforms: &[Transform],
    request: &Request,
    body_limit: u32,
) -> Result<bool, Memory>
    ensures { IfOk result (λ holds. IsTrue holds ↔ TestHolds (test_of asked.now) field.now transforms.now request.now body_limit) }
{
    if oversized(request, field, body_limit) {
        match oversize_of(field) {
            Oversize::Continue => {
                some_shown_passes(alloc, asked, field, transforms, request, body_limit)
            }
            Oversize::Match => Ok(true),
            Oversize::NoMatch => Ok(false),
        }
    } else {
        some_shown_passes(alloc, asked, field, transforms, request, body_limit)
    }
}

/// How the field handles what is oversized; a field of another kind never is.
fn oversize_of(field: &Field) -> Oversize
    ensures { result ≡ oversize_in field.now }
{
    match field {
        Field::Body(oversize) => *oversize,
        Field::Headers(_, _, oversize) => *oversize,
        Field::Cookies(_, _, oversize) => *oversize,
        _ => Oversize::Continue,
    }
}

/// Whether some text that the field shows passes the test after the transformations. It fails only for want of memory.
fn some_shown_passes(
    alloc: Global,
    asked: &Asked<'_>,
    field: &Field,
    transforms: &[Transform],
    request: &Request,
    body_limit: u32,
) -> Result<bool, Memory>
    ensures { IfOk result (λ passed. IsTrue passed ↔ SomePasses (test_of asked.now) field.now transforms.now request.now body_limit) }
{
    let shown = parts(alloc, request, field, body_limit)?;
    let texts = transformed(alloc, transforms, shown.as_slice())?;
    let passed = some_passes(alloc, asked, texts.as_slice())?;
    Ok(passed)
}

/// The texts after the transformations, in their order. It fails only for want of memory.
fn transformed(
    alloc: Global,
    transforms: &[Transform],
    texts: &[Text],
) -> Result<Items<Text>, Memory>
    ensures { IfOk result (λ all. all ≡ map (transform_all transforms.now) texts.now) }
{
    let mut all = Items::new(alloc);
    for text in texts {
        all.push(Text::from_vec(apply_all(alloc, transforms, text.bytes())?))?;
    }
    Ok(all)
}
