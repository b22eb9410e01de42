//! Texts that are compared with others joined, which are not built.

ghost use Rattle.std.specs.Prelude.{◌≡◌, ◌++◌, ◌==◌, ◌≤◌, codes, drop, length};
ghost use Rattle.std.specs.List.{ends_with, starts_with};
ghost use Rattle.std.specs.Str.{bytes_eq};
ghost use Rattle.waf_model.specs.LabelMatch.{ended};

/// What stands behind as many bytes as the front has.
fn behind<'a>(text: &'a [u8], front: &[u8]) -> &'a [u8]
    requires { length front.now ≤ length text.now }
    ensures { result.now ≡ drop (length front.now) text.now }
{
    text.split_at(front.len()).1
}

/// Whether the text is the front and then the key.
#[tactic(auto, using(crate::proofs::Joins::whole_split))]
pub(crate) fn is_joined(text: &[u8], front: &[u8], key: &[u8]) -> bool
    ensures { result ≡ bytes_eq text.now (front.now ++ key.now) }
{
    text.starts_with(front) && behind(text, front) == key
}

/// Whether the text begins with the front and then the key.
#[tactic(auto, using(crate::proofs::Joins::starts_split))]
fn begins_with(text: &[u8], front: &[u8], key: &[u8]) -> bool
    ensures { result ≡ starts_with ◌==◌ text.now (front.now ++ key.now) }
{
    text.starts_with(front) && behind(text, front).starts_with(key)
}

/// Whether the text begins with the front, then the key and then `:`.
#[tactic(auto, using(crate::proofs::Joins::starts_split))]
fn begins_below(text: &[u8], front: &[u8], key: &[u8]) -> bool
    ensures { result ≡ starts_with ◌==◌ text.now (front.now ++ (key.now ++ codes ":")) }
{
    text.starts_with(front) && begins_with(behind(text, front), key, b":")
}

/// Whether the front and then the key end in `:`.
#[tactic(auto, using(crate::proofs::Joins::ends_behind, crate::proofs::Joins::ends_alone))]
fn ends_in_colon(front: &[u8], key: &[u8]) -> bool
    ensures { result ≡ ends_with ◌==◌ (front.now ++ key.now) (codes ":") }
{
    if key.is_empty() {
        front.ends_with(b":")
    } else {
        key.ends_with(b":")
    }
}

/// Whether the text begins with the front and then the key, with `:` behind them unless they end so.
pub(crate) fn begins_with_ended(text: &[u8], front: &[u8], key: &[u8]) -> bool
    ensures { result ≡ starts_with ◌==◌ text.now (ended (front.now ++ key.now)) }
{
    if ends_in_colon(front, key) {
        begins_with(text, front, key)
    } else {
        begins_below(text, front, key)
    }
}
