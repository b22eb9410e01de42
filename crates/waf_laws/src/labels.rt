//! Labels that agree.

ghost use Rattle.std.specs.Prelude.{◌↔◌, ℕ, List, IsTrue};
ghost use Rattle.waf_model.specs.LabelAgreement.{Agree, labels_agree};
ghost use Rattle.waf_model.specs.declared.bundle.Bundle.{Bundle};

/// The truth value says exactly whether two labels agree.
pub fn agreement_is_decided()
    ensures { (old new : Bundle) (a b : List ℕ) → IsTrue (labels_agree old new a b) ↔ Agree old new a b }
{}
