//! Marks of ASCII in texts.

ghost use Rattle.std.specs.Prelude.{◌≡◌, ◌∷◌, ◌<◌, MatchOption};
ghost use Rattle.jsonb_functions.specs.Names.{BeginsNoMark};

/// The byte with which a text begins and the text after it, if that byte is ASCII.
pub fn split_mark(text: &str) -> Option<(u8, &str)>
    ensures { MatchOption result (BeginsNoMark text.now)
        (λ parts. (parts.0 < 128) × (text.now ≡ parts.0 ∷ parts.1.now)) }
{
    let [mark, ..] = text.as_bytes() else {
        return None;
    };
    if mark.is_ascii() {
        Some((*mark, &text[1..]))
    } else {
        None
    }
}
