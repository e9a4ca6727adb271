//! Answering a line.

ghost use Rattle.std.specs.Prelude.{◌≡◌, ◌∷◌, ◌++◌, [], ℕ, List, IfOk, string_bytes};
ghost use Rattle.answer_lines.specs.Words.{IsReply};

use std::alloc::{AllocError, Global};

/// A program that replies to lines, one after another, and may change its state with each.
pub trait LineAnswerer {
    // Allowed replies in a state, and the next state.
    ghost rule: { Self → List ℕ → List ℕ → Self → Type 0 };

    /// The reply to a line, with its line feed. If the answer needs memory that cannot be
    /// allocated, the reply is `error OutOfMemory`. The only error is that the reply itself cannot
    /// be allocated.
    fn answer(&mut self, alloc: Global, line: &[u8]) -> Result<String, AllocError>
        ensures reply { IfOk result (λ text. (reply : List ℕ)
            × (IsReply rule self.old line.now reply self.new
            × (string_bytes text ≡ reply ++ 10 ∷ []))) };
}
