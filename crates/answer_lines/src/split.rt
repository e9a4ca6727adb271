//! Splitting bytes at a separator.

ghost use Rattle.std.specs.Prelude.{◌≡◌, ◌≢◌, ◌∷◌, ◌++◌, All, IfSome, IfNone};

/// The bytes before the first separator, and those after it. `None` if there is no separator.
pub fn split_once(bytes: &[u8], separator: u8) -> Option<(&[u8], &[u8])>
    ensures before { IfSome result (λ parts. All (λ b. b ≢ separator) parts.0.now) }
    ensures parts { IfSome result (λ parts.
        bytes.now ≡ parts.0.now ++ separator ∷ parts.1.now) }
    ensures none { IfNone result (All (λ b. b ≢ separator) bytes.now) }
{
    let place = bytes.iter().position(|byte| *byte == separator)?;
    Some((&bytes[..place], &bytes[place + 1..]))
}
