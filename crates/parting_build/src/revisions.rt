//! The review.

ghost use Rattle.std.specs.Prelude.{◌≡◌, [], ℕ, List, IsTrue, None, IfOk, IfErr, IfSome};
ghost use Rattle.waf_model.specs.Alike.{Alike, Parts};
ghost use Rattle.waf_model.specs.WholeBundle.{IsWhole};
ghost use Rattle.waf_model.specs.Within.{is_path};
ghost use Rattle.parting_build.specs.Candidate.{AlikeAt};
ghost use Rattle.parting_build.specs.Named.{names};
ghost use Rattle.parting_build.specs.Plain.{plain_form_of};
ghost use Rattle.parting_build.specs.Reviewed.{IsReview};
ghost use Rattle.parting_build.specs.declared.verdict.ReviewStop.TheVariants as stops;

use crate::candidate::parting_at;
use crate::named::{search_of_rule, unnamed_path};
use crate::verdict::{Parting, Review, ReviewStop};
use std::alloc::Global;
use waf_base::Meter;
use waf_model::{Bundle, Memory, TopRule};

/// Whether the two decide alike on every request within the limits, or else a request that parts them, whose headers
/// have the fewest bytes. Each is whole, as what is read is, and `plain_form` names nothing of it: it has at most 1,000
/// rules, which match the whole path and allow or block. The answer comes without a node, so the meter stays; it fails
/// only for want of memory.
pub fn review(
    alloc: Global,
    old: &Bundle,
    new: &Bundle,
    meter: &mut Meter,
) -> Result<Review, ReviewStop>
    requires old_whole { IsWhole old.now }
    requires new_whole { IsWhole new.now }
    requires old_plain { plain_form_of old.now ≡ None }
    requires new_plain { plain_form_of new.now ≡ None }
    ensures answer { IfOk result (IsReview old.now new.now) }
    ensures stop { IfErr result (λ stop. stop ≡ stops.Memory) }
    ensures meter { meter.new ≡ meter.old }
{
    let _meter = meter;
    match find_parting(alloc, old, new)? {
        Some(parting) => Ok(Review::Different(parting)),
        None => Ok(Review::Equal),
    }
}

/// The request of the first path named by a rule of the list that parts the two.
fn tried_rules(
    alloc: Global,
    old: &Bundle,
    new: &Bundle,
    rules: &[TopRule],
) -> Result<Option<Parting>, Memory>
    requires old_whole { IsWhole old.now }
    requires new_whole { IsWhole new.now }
    ensures found { IfOk result (λ found. IfSome found (λ parting. Parts old.now new.now parting.request parting.answers parting.old parting.new × (parting.request.headers ≡ []))) }
    ensures none { IfOk result (λ found. found ≡ None → (path : List ℕ) → IsTrue (names rules.now path) → IsTrue (is_path path) → AlikeAt old.now new.now path) }
{
    for rule in rules {
        match parting_at(alloc, old, new, search_of_rule(&rule.body))? {
            Some(parting) => return Ok(Some(parting)),
            None => {}
        }
    }
    Ok(None)
}

/// A request that parts the two, if there is one.
fn find_parting(alloc: Global, old: &Bundle, new: &Bundle) -> Result<Option<Parting>, Memory>
    requires old_whole { IsWhole old.now }
    requires new_whole { IsWhole new.now }
    requires old_plain { plain_form_of old.now ≡ None }
    requires new_plain { plain_form_of new.now ≡ None }
    ensures found { IfOk result (λ found. IfSome found (λ parting. Parts old.now new.now parting.request parting.answers parting.old parting.new × (parting.request.headers ≡ []))) }
    ensures none { IfOk result (λ found. found ≡ None → Alike old.now new.now) }
{
    let old_rules = old.acl.rules.as_slice();
    let new_rules = new.acl.rules.as_slice();
    match tried_rules(alloc, old, new, old_rules)? {
        Some(parting) => Ok(Some(parting)),
        None => match tried_rules(alloc, old, new, new_rules)? {
            Some(parting) => Ok(Some(parting)),
            None => {
                let path = unnamed_path(alloc, old_rules, new_rules)?;
                let found = parting_at(alloc, old, new, path.bytes())?;
                Ok(found)
            }
        },
    }
}
