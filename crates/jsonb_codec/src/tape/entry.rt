//! Values on the tape.

ghost use Rattle.std.specs.Prelude.{◌≡◌, ◌+◌, ◌<◌, ◌≤◌, ◌^◌, IfSome, IfNone};

use crate::word::tagged_word;
use crate::writer::measure::MAX_PAYLOAD;

/// A value: the type of its entry, and the length of its payload in bytes.
#[derive(Clone, Copy)]
pub struct Entry {
    pub type_code: u32,
    pub size: usize,
    ghost small: { type_code ≤ 0x70000000 },
}

impl Entry {
    /// The entry word. `None` if no entry word can hold the length.
    #[inline(always)]
    pub fn word(&self) -> Option<u32>
        ensures some { IfSome result
            (λ word. (word ≡ self.now.type_code + self.now.size) × (self.now.size < 2 ^ 28)) }
        ensures none { IfNone result (2 ^ 28 ≤ self.now.size) }
    {
        if self.size > MAX_PAYLOAD {
            return None;
        }
        Some(tagged_word(self.type_code, self.size))
    }
}
