//! The laws of answers.

ghost use Rattle.std.specs.Prelude.{◌≡◌, ℕ, List};
ghost use Rattle.jsonb_cli.specs.Names.{AreAnswers, IsAnswer, commands, line_rule};

/// A line has one answer beside `error OutOfMemory`. So if no answer is `error OutOfMemory`, the
/// output is determined by the input.
pub fn answer_laws()
    ensures one { (line a b : List ℕ) → IsAnswer line a → IsAnswer line b → a ≡ b }
    ensures one_output { (input a b : List ℕ) → AreAnswers line_rule commands input a
        → AreAnswers line_rule commands input b → a ≡ b }
{}
