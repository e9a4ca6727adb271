//! A text in the making, which lies at the start of a longer buffer.

ghost use Rattle.std.specs.Prelude.{◌≤◌, length, take, IsUtf8};

use crate::copies::store;
use std::alloc::{AllocError, Global};
use std::fmt;

// How many bytes past what is needed are made ready at once. They are filled before the text comes
// to them: few enough that they stay in a processor's first cache.
const AHEAD: usize = 1920;

/// A text that is built from front to back. Its buffer grows as that of a `String`, and a short
/// text is stored without a call.
#[derive(Drop)]
pub struct Written {
    bytes: Vec<u8>,
    at: usize,
    ghost within: { at ≤ length bytes.items },
    ghost utf8: { ∥ IsUtf8 (take at bytes.items) ∥₁ },
}

impl Written {
    ghost use Rattle.std.specs.Prelude.{◌≡◌, ◌+◌, ◌<◌, ◌++◌, [], IfOk, OnOk, string_bytes};
    ghost use Rattle.jsonb.specs.Written.{written_text};

    /// No text, and no memory yet.
    pub fn new(alloc: Global) -> Written
        ensures { written_text result ≡ [] }
    {
        Written {
            bytes: Vec::new(alloc),
            at: 0,
        }
    }

    /// No text, with memory for so many bytes.
    pub fn with_capacity(alloc: Global, capacity: usize) -> Result<Written, AllocError>
        ensures { IfOk result (λ w. written_text w ≡ []) }
    {
        Ok(Written {
            bytes: Vec::with_capacity(alloc, capacity)?,
            at: 0,
        })
    }

    /// The text.
    pub fn finish(self) -> String
        ensures { string_bytes result ≡ written_text self }
    {
        let Written { mut bytes, at } = self;
        bytes.truncate(at);
        unsafe { String::from_utf8_unchecked(bytes) }
    }

    // Makes at least so many bytes ready.
    #[inline(always)]
    fn make_room(&mut self, additional: usize) -> Result<(), AllocError>
        ensures text { written_text self.new ≡ written_text self.old }
        ensures ready { OnOk result (self.new.at + additional ≤ length self.new.bytes.items) }
    {
        if additional <= self.bytes.len() - self.at {
            return Ok(());
        }
        self.make_more_room(additional)
    }

    #[cold]
    #[inline(never)]
    fn make_more_room(&mut self, additional: usize) -> Result<(), AllocError>
        requires { length self.old.bytes.items < self.old.at + additional }
        ensures text { written_text self.new ≡ written_text self.old }
        ensures ready { OnOk result (self.new.at + additional ≤ length self.new.bytes.items) }
    {
        let len = self.bytes.len();
        let need = additional - (len - self.at);
        self.bytes.reserve(need)?;
        let wanted = (len + need).saturating_add(AHEAD);
        let ready = wanted.min(self.bytes.capacity());
        self.bytes.resize(ready, 0)
    }

    #[inline(always)]
    fn store(&mut self, text: &str)
        requires { self.old.at + length text.now ≤ length self.old.bytes.items }
        ensures { written_text self.new ≡ written_text self.old ++ text.now }
    {
        self.at = store(self.bytes.as_mut_slice(), self.at, text.as_bytes());
    }
}

impl fmt::Write for Written {
    ghost use Rattle.std.specs.Prelude.{◌≡◌, ◌++◌};
    ghost use Rattle.jsonb.specs.Written.{written_text};

    ghost write_str_gives = { λ s bytes t. written_text t ≡ written_text s ++ bytes };

    #[inline(always)]
    fn write_str(&mut self, text: &str) -> fmt::Result {
        match self.make_room(text.len()) {
            Ok(()) => {
                self.store(text);
                Ok(())
            }
            Err(_) => Err(fmt::Error),
        }
    }
}
