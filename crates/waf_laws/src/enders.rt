//! What ends an evaluation.

ghost use Rattle.std.specs.Prelude.{◌≢◌, AllPairs};
ghost use Rattle.waf_model.specs.Steps.{steps};
ghost use Rattle.waf_model.specs.WholeBundle.{IsWhole};
ghost use Rattle.waf_model.specs.declared.bundle.Bundle.{Bundle};

/// No two steps of a whole bundle have one ender, so that an ender tells the step that ended the evaluation.
pub fn enders_tell_steps()
    ensures { (bundle : Bundle) → IsWhole bundle → AllPairs (λ a b. a.ender ≢ b.ender) (steps bundle) }
{}
