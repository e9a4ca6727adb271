//! Extension values of unknown kinds, carried unchanged.

ghost use Rattle.std.specs.Prelude.{◌≡◌, ◌↔◌, IfSome, IsSome};
ghost use Rattle.jsonb_value.specs.Opaque.{IsOpaqueTag};

/// An extension value of a kind that this layer does not know: a tag that is a multiple of 0x10
/// from 0x50 to 0xF0, and bytes that are carried unchanged.
#[derive(Clone, Copy, Debug, PartialEq, Eq)]
pub struct Opaque<'a> {
    tag: u8,
    bytes: &'a [u8],
    ghost fact: { IsOpaqueTag tag },
}

impl<'a> Opaque<'a> {
    ghost use Rattle.jsonb_value.specs.Words.{opaque_tag, opaque_bytes};

    /// A value with this tag and these bytes. `None` unless the tag is a multiple of 0x10 from 0x50
    /// to 0xF0.
    pub fn new(tag: u8, bytes: &'a [u8]) -> Option<Opaque<'a>>
        ensures exact { IsSome result ↔ IsOpaqueTag tag }
        ensures tag { IfSome result (λ o. opaque_tag o ≡ tag) }
        ensures bytes { IfSome result (λ o. opaque_bytes o ≡ bytes.entry.now) }
    {
        if tag < 0x50 || tag % 0x10 != 0 {
            return None;
        }
        Some(Opaque { tag, bytes })
    }

    /// The tag: a multiple of 0x10 from 0x50 to 0xF0.
    pub fn tag(&self) -> u8
        ensures tag { result ≡ opaque_tag self.now }
        ensures fact { IsOpaqueTag result }
    {
        self.tag
    }

    /// The bytes after the tag.
    pub fn bytes(&self) -> &'a [u8]
        ensures { result.now ≡ opaque_bytes self.now }
    {
        self.bytes
    }
}
