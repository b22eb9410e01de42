//! Requests within the limits.

ghost use Rattle.std.specs.Prelude.{◌≡◌, ◌≤◌, ℕ, List, false};
ghost use Rattle.waf_model.specs.HeaderNames.{lower_name, value_named};
ghost use Rattle.waf_model.specs.Shown.{is_oversized};
ghost use Rattle.waf_model.specs.Within.{Within, value_of_header};
ghost use Rattle.waf_model.specs.declared.field.Field.{Field};
ghost use Rattle.waf_model.specs.declared.request.Request.{Request};

/// No field is oversized in a request within the limits, for a web ACL that inspects as many bytes of a body or more.
pub fn nothing_is_oversized()
    ensures { (field : Field) (request : Request) (most limit : ℕ) → Within request most → most ≤ limit
        → is_oversized field request limit ≡ false }
{}

/// In a request within the limits a header has exactly its name in lower case.
pub fn header_names_are_exact()
    ensures { (request : Request) (limit : ℕ) (name : List ℕ) → Within request limit
        → value_of_header request name ≡ value_named request (lower_name name) }
{}
