//! Laws of JSON texts and of the orders of values.

ghost use Rattle.std.specs.Prelude.{◌≡◌, ℕ, IsUtf8, List};
ghost use Rattle.jsonb_value.specs.Words.{HasDepthOfSpelled, Json, JsonText, JsonWithExponents};
ghost use Rattle.jsonb_value.specs.Words.{Tree};

pub use crate::order::{
    order_of_extension_values, order_of_meanings, order_of_numbers, order_of_trees,
};
use crate::parser::Exponents;

/// Laws of JSON texts, with exponents or without. No text means two trees. A text without exponents
/// means the same if they are allowed. A text is as deep as what it spells, and its tree is no
/// deeper: it is less deep only if a deeper value is not kept, since its key is repeated.
pub fn json_laws()
    ensures one_tree { (rule : Exponents) (s : List ℕ) (t u : Tree) → JsonText rule s t
        → JsonText rule s u → t ≡ u }
    ensures same { (s : List ℕ) (t : Tree) → Json s t → JsonWithExponents s t }
    ensures depth { (rule : Exponents) (text : List ℕ) → IsUtf8 text
        → HasDepthOfSpelled rule text }
{}
