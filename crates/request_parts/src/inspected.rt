//! The headers and cookies that are inspected.

ghost use Rattle.request_parts.specs.Fitting.{fitting};
ghost use Rattle.waf_model.specs.Inspected.{inspected, most_bytes, most_entries};
ghost use Rattle.request_parts.specs.PieceViews.{texts};
ghost use Rattle.waf_model.specs.Shown.{cookie_size, header_size};
ghost use Rattle.std.specs.Prelude.{◌≡◌};

use crate::oversize::{MOST_BYTES, MOST_ENTRIES, size_of};
use waf_model::Header;

/// The longest prefix of the headers that is inspected.
#[tactic(auto, using(crate::proofs::Longest::fitting_is_inspected))]
pub(crate) fn inspected_headers(headers: &[Header]) -> &[Header]
    ensures { result.now ≡ inspected header_size headers.now }
{
    fitting_headers(headers)
}

fn fitting_headers(headers: &[Header]) -> &[Header]
    ensures { result.now ≡ fitting header_size most_entries most_bytes headers.now }
{
    let mut room = MOST_BYTES;
    for (place, header) in headers.iter().enumerate() {
        let size = size_of(header);
        if place == MOST_ENTRIES || size > room {
            return &headers[..place];
        }
        room -= size;
    }
    headers
}

/// The longest prefix of the cookies that is inspected.
#[tactic(auto, using(crate::proofs::Longest::fitting_is_inspected))]
pub(crate) fn inspected_cookies<'a, 'b>(cookies: &'a [&'b [u8]]) -> &'a [&'b [u8]]
    ensures { texts result.now ≡ inspected cookie_size (texts cookies.now) }
{
    fitting_cookies(cookies)
}

fn fitting_cookies<'a, 'b>(cookies: &'a [&'b [u8]]) -> &'a [&'b [u8]]
    ensures { texts result.now ≡ fitting cookie_size most_entries most_bytes (texts cookies.now) }
{
    let mut room = MOST_BYTES;
    for (place, cookie) in cookies.iter().enumerate() {
        let size = cookie.len();
        if place == MOST_ENTRIES || size > room {
            return &cookies[..place];
        }
        room -= size;
    }
    cookies
}
