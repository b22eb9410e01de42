//! Laws of the transformations.

ghost use Rattle.std.specs.Prelude.{◌≡◌, ◌++◌, ℕ, List, [], ◌∷◌};
ghost use Rattle.text_transform.specs.Segments.{with_segment};
ghost use Rattle.waf_model.specs.TransformPaths.{kept};

/// The segments of a path are kept one by one, from the first to the last: each is dropped, takes back the last that is
/// kept, or is kept behind it.
pub fn kept_next()
    ensures { (segments : List (List ℕ)) (segment : List ℕ) → kept (segments ++ segment ∷ []) ≡ with_segment (kept segments) segment }
{}
