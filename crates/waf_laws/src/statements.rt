//! Tests and statements as truth values.

ghost use Rattle.std.specs.Prelude.{◌↔◌, ℕ, List, IsTrue};
ghost use Rattle.waf_model.specs.Holds.{Holds};
ghost use Rattle.waf_model.specs.HoldsTruth.{statement_holds};
ghost use Rattle.waf_model.specs.LabelMatch.{IsAmong};
ghost use Rattle.waf_model.specs.Passes.{Passes, Test};
ghost use Rattle.waf_model.specs.TestTruth.{passes};
ghost use Rattle.waf_model.specs.declared.answers.Answers.{Answers};
ghost use Rattle.waf_model.specs.declared.bundle.Bundle.{Bundle};
ghost use Rattle.waf_model.specs.declared.request.Request.{Request};
ghost use Rattle.waf_model.specs.declared.statement.Statement.{Statement};

/// The truth value of a test, patterns among them, says exactly whether a text passes it.
pub fn tests_are_decided()
    ensures { (test : Test) (text : List ℕ) → IsTrue (passes test text) ↔ Passes test text }
{}

/// The truth value of a statement says exactly whether it holds, where these labels were seen.
pub fn statements_are_decided()
    ensures { (bundle : Bundle) (statement : Statement) (request : Request) (answers : Answers)
        (labels : List (List ℕ)) (namespace : List ℕ) (limit : ℕ)
        → IsTrue (statement_holds bundle statement request answers labels namespace limit)
        ↔ Holds bundle statement request answers (IsAmong labels) namespace limit }
{}
