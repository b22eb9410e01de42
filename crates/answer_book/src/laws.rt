//! Laws of answers.

ghost use Rattle.std.specs.Prelude.{IfOk, List, ℕ};
ghost use Rattle.answer_book.specs.AnswersReading.{answers_reading};
ghost use Rattle.waf_model.specs.Alike.{IsLawful};

/// Answers that are read are lawful: every label of a managed rule group's answer begins `awswaf:managed:`.
pub fn read_answers_are_lawful()
    ensures { (bytes : List ℕ) → IfOk (answers_reading bytes) IsLawful }
{}
