//! The value at a key of a text.

ghost use Rattle.std.specs.Prelude.{◌≡◌, ◌≤◌, ◌⊎◌, Err, IfOk, IfErr, chars};
ghost use Rattle.jsonb_value.specs.declared.error.Error.TheVariants.{InvalidJson, OutOfMemory};
ghost use Rattle.jsonb_value.specs.Json.Syntax.{JsonText};
ghost use Rattle.jsonb_value.specs.TextDepth.{text_depth};
ghost use Rattle.jsonb_value.specs.Tree.{Tree};
ghost use Rattle.text_lookup.specs.Lookup.{IsMemberOf};

use crate::sink::MemberSink;
use jsonb_value::{Error, Exponents, Value, read_text_within};
use std::alloc::Global;

/// How long a text may be that is looked up in, in bytes. The document of a text that is shorter
/// than this exceeds no limit.
pub const MAX_LOOKUP_LEN: usize = 1 << 22;

/// The value at a key of a text.
#[derive(Drop)]
pub enum TextMember<'a> {
    /// It is a scalar.
    Scalar(Value<'a>),
    /// The text is an object without this key.
    Missing,
    /// It was not kept: it is an array or object, or the text is no object, or too long.
    Unread,
}

/// The value at a key of the object that a text is, if it is a scalar. The whole text is read, with
/// exponents if they are allowed; of equal keys the last value counts. A text of `MAX_LOOKUP_LEN`
/// bytes or more is not read. `InvalidJson` if the text is not JSON, or nests more than `depth`
/// deep; `OutOfMemory` if an allocation fails.
pub fn member_of_text<'a>(
    alloc: Global,
    text: &'a str,
    key: &str,
    exponents: Exponents,
    depth: usize,
) -> Result<TextMember<'a>, Error>
    ensures ok { IfOk result (λ member. IsMemberOf exponents depth key.now member text.now) }
    ensures invalid { result ≡ Err InvalidJson → text_depth text.now ≤ depth
        → (t : Tree) → JsonText exponents (chars text.now) t → ⊥ }
    ensures only { IfErr result (λ e. (e ≡ InvalidJson) ⊎ (e ≡ OutOfMemory)) }
{
    if text.len() >= MAX_LOOKUP_LEN {
        return Ok(TextMember::Unread);
    }
    let mut sink = MemberSink {
        alloc,
        key,
        depth: 0,
        is_at_key: false,
        member: TextMember::Unread,
    };
    read_text_within(alloc, &mut sink, text, exponents, depth)?;
    // The reader does not promise to leave the key as it is.
    if sink.key == key {
        Ok(sink.member)
    } else {
        Err(Error::OutOfMemory)
    }
}
