//! Laws of the labels by which the answers of managed rule groups are told apart.

ghost use Rattle.label_scope.specs.Vocabulary.{vocabulary_of};
ghost use Rattle.std.specs.Prelude.{All, AllPairs, Any, IsTrue, List, ℕ};
ghost use Rattle.waf_model.specs.LabelAgreement.{Agree, is_managed_label, pair_label_tests, test_holds};
ghost use Rattle.waf_model.specs.declared.bundle.Bundle.{Bundle};

/// The vocabulary of two bundles stands for all labels of managed rule groups: each of which some label match of either
/// bundle holds agrees with one of it, no two of it agree, and all of it are labels of managed rule groups.
pub fn vocabulary_stands_for_labels()
    ensures each { (old new : Bundle) (label : List ℕ) → IsTrue (is_managed_label label)
        → Any (λ test. IsTrue (test_holds test label)) (pair_label_tests old new)
        → Any (λ one. Agree old new label one) (vocabulary_of old new) }
    ensures apart { (old new : Bundle) → AllPairs (λ a b. Agree old new a b → ⊥) (vocabulary_of old new) }
    ensures managed { (old new : Bundle) → All (λ one. IsTrue (is_managed_label one)) (vocabulary_of old new) }
{}
