//! Laws of the texts of requests.

ghost use Rattle.request_parts.specs.RequestReading.{request_reading};
ghost use Rattle.std.specs.Prelude.{◌≡◌, ℕ, Ok};
ghost use Rattle.waf_model.specs.RequestText.{request_text};
ghost use Rattle.waf_model.specs.Within.{Within};
ghost use Rattle.waf_model.specs.declared.request.Request.{Request};

/// The text of a request within the limits is read as that request, however long its body is.
pub fn reads_back()
    ensures { (request : Request) (body_limit : ℕ) → Within request body_limit → request_reading (request_text request) ≡ Ok request }
{}
