//! Laws of texts of arrays.

ghost use Rattle.std.specs.Prelude.{◌≡◌, ℕ, List, true};
ghost use Rattle.array_items.specs.ArrayTexts.{IsArrayText, ReadsItems};
ghost use Rattle.array_items.specs.Arrays.{is_array_start};
ghost use Rattle.array_items.specs.Blanks.{first_byte};
ghost use Rattle.array_items.specs.Words.{trimmed};

/// Reads find the items of the array that a text is, in order, and then its end; and a text that
/// begins with `[`, of which they find the end, is the array of what they found. A text is one
/// array at most.
pub fn array_laws()
    ensures reads { (text : List ℕ) (items : List (List ℕ))
        → IsArrayText text items → ReadsItems text items }
    ensures is_array { (text : List ℕ) (items : List (List ℕ))
        → is_array_start (first_byte (trimmed text)) ≡ true → ReadsItems text items
        → IsArrayText text items }
    ensures one_reading { (text : List ℕ) (items others : List (List ℕ))
        → ReadsItems text items → ReadsItems text others → items ≡ others }
{}
