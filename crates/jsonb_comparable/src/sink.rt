//! Where the bytes of a key go: into a buffer, or into a count.

ghost use Rattle.std.specs.Prelude.{ℕ, List, ⊤};
ghost use Rattle.jsonb_comparable.specs.Words.{HasRoom, AppendsBytes, SinkLaws, CountsBytes};
ghost use Rattle.jsonb_comparable.specs.Words.{vec_laws};
ghost use Rattle.jsonb_comparable.specs.Words.{length_laws};

/// Takes the bytes of a key, whose length is known before.
pub trait Sink {
    ghost room: { Self → List ℕ → Type 0 };

    ghost appends: { Self → Self → List ℕ → Type 0 };

    ghost laws: { SinkLaws room appends };

    /// Appends bytes, for which there is room.
    fn append(&mut self, bytes: &[u8])
        requires { room self.old bytes.now }
        ensures { appends self.old self.new bytes.now };
}

/// The count of appended bytes, or `usize::MAX` if there were more.
#[derive(Drop)]
pub struct KeyLength {
    pub len: usize,
}

impl Sink for KeyLength {
    ghost room = { λ length bytes. ⊤ };

    ghost appends = { CountsBytes };

    ghost laws = { length_laws };

    #[inline(always)]
    fn append(&mut self, bytes: &[u8]) {
        self.len = self.len.saturating_add(bytes.len());
    }
}

/// A buffer whose room was reserved before.
impl Sink for Vec<u8> {
    ghost room = { HasRoom };

    ghost appends = { AppendsBytes };

    ghost laws = { vec_laws };

    #[inline(always)]
    fn append(&mut self, bytes: &[u8]) {
        let Ok(()) = self.extend_from_slice(bytes) else {
            unreachable!();
        };
    }
}
