//! Writing the canonical form of a document while reading the document.

ghost use Rattle.std.specs.Prelude.{◌≡◌, ◌≤◌, ◌+◌, ◌++◌, length, vec_capacity, IsOk};
ghost use Rattle.std.specs.Prelude.{OnOk, OnErr};
ghost use Rattle.jsonb_codec.specs.Canon.{Fits};
ghost use Rattle.jsonb_codec.specs.Words.{Tree, IsTree, Doc, IsDocument, canon, code_of, PartMeans};
ghost use Rattle.jsonb_codec.specs.Words.{LevelIs, MadeIfFit};
ghost use Rattle.jsonb_codec.specs.Words.{bytes_of, part_meaning, part_laws, level_size, shape_of};

use super::is_canonical_document;
use crate::constants::{CONTAINER_TAG, EXTENSION_TAG, NUMBER_TAG};
use crate::document::DocumentBytes;
use crate::parts::{Child, Children, Contents, Member, Members, Object, Part};
use crate::writer::append::append_document;
use crate::writer::code::{Payload, StoredEntry};
use crate::writer::source::{Level, Side, Source};
use jsonb_value::Error;

/// Appends the canonical document of the value that the bytes mean, with a single growth of the
/// buffer and without building a tree. `InvalidJsonb`, before any allocation, if the bytes are not
/// a document, or a payload in an older form exceeds 268,435,455 bytes in its newer form;
/// `OutOfMemory` if the buffer cannot grow. After an error the bytes of the buffer are unchanged.
pub fn append_canonical(buf: &mut Vec<u8>, bytes: &[u8]) -> Result<(), Error>
    ensures document { OnOk result (IsDocument bytes.now) }
    ensures appended { OnOk result ((t : Tree) → Doc bytes.now t
        → Fits t × (buf.new.items ≡ buf.old.items ++ canon t)) }
    ensures tree { OnOk result ((t : Tree) → Doc bytes.now t → IsTree t) }
    ensures err { OnErr result (buf.new.items ≡ buf.old.items) }

    // Which error is returned: an allocation is attempted only if the canonical document exists.
    ensures limits { MadeIfFit ((t : Tree) × (Doc bytes.now t × Fits t)) result }
    ensures room { (t : Tree) → Doc bytes.now t → Fits t
        → length buf.old.items + length (canon t) ≤ vec_capacity buf.old → IsOk result }
{
    let Some(document) = DocumentBytes::new(bytes) else {
        return Err(Error::InvalidJsonb);
    };
    append_canonical_document(buf, document)
}

/// Appends the canonical document of a checked document's value, with a single growth of the buffer
/// and without building a tree. `InvalidJsonb`, before any allocation, if a payload in an older
/// form exceeds 268,435,455 bytes in its newer form; `OutOfMemory` if the buffer cannot grow. After
/// an error the bytes of the buffer are unchanged.
pub fn append_canonical_document(
    buf: &mut Vec<u8>,
    document: DocumentBytes<'_>,
) -> Result<(), Error>
    ensures appended { OnOk result ((t : Tree) → Doc (bytes_of document.entry) t
        → Fits t × (buf.new.items ≡ buf.old.items ++ canon t)) }
    ensures err { OnErr result (buf.new.items ≡ buf.old.items) }
    ensures limits { MadeIfFit ((t : Tree) × (Doc (bytes_of document.entry) t × Fits t)) result }
    ensures room { (t : Tree) → Doc (bytes_of document.entry) t → Fits t
        → length buf.old.items + length (canon t) ≤ vec_capacity buf.old → IsOk result }
{
    // Most documents are canonical, and a copy costs less than a measure of each level.
    if is_canonical_document(document) {
        buf.extend_from_slice(document.as_bytes())?;
        return Ok(());
    }
    append_document::<Part>(buf, part_level(document.part()))
}

type PartLevel<'a> = Level<StoredEntry<'a>, Children<'a>, Object<'a>>;

// Numbers and extension values are decoded and written in their shortest form.
#[inline(always)]
fn part_level<'a>(part: Part<'a>) -> PartLevel<'a>
    ensures is { (t : Tree) → PartMeans part.entry t
        → LevelIs code_of part_meaning result (shape_of t) }
    ensures inside { level_size part_meaning result ≤ length part.entry.payload.now }
{
    let type_code = part.type_code;
    let payload = match type_code {
        NUMBER_TAG => Payload::Number(part.number()),
        EXTENSION_TAG => Payload::Extension(part.extension()),
        CONTAINER_TAG => match part.contents() {
            Contents::Array(items) => return Level::Array(items),
            Contents::Object(object) => return Level::Object(object),
        },
        _ => Payload::Bytes(part.payload),
    };
    Level::Leaf(StoredEntry { type_code, payload })
}

impl<'a> Source for Part<'a> {
    type Leaf = StoredEntry<'a>;

    type Child = Part<'a>;

    type Items = Children<'a>;

    type Object = Object<'a>;

    type Members = Members<'a>;

    ghost meaning = { part_meaning };

    ghost laws = { part_laws };

    #[inline(always)]
    fn level(child: Part<'a>) -> PartLevel<'a> {
        part_level(child)
    }

    #[inline(always)]
    fn item_side(item: Part<'a>, later: Children<'a>) -> Option<Side> {
        Some(Side::shorter(item.payload.len(), later.stored_len()))
    }

    #[inline(always)]
    fn value_side(value: Part<'a>, later: &Members<'a>) -> Option<Side> {
        Some(Side::shorter(value.payload.len(), later.values.stored_len()))
    }

    #[inline(always)]
    #[tactic(auto, using(crate::proofs::PartLaws::items_count))]
    fn count(items: Children<'a>) -> usize {
        items.len()
    }

    #[inline(always)]
    fn split_item(items: Children<'a>) -> Option<(Part<'a>, Children<'a>)> {
        let Child { part, later } = items.split_first()?;
        Some((part, later))
    }

    #[inline(always)]
    fn object_count(object: Object<'a>) -> usize {
        object.count
    }

    #[inline(always)]
    fn members(object: Object<'a>) -> Members<'a> {
        object.members()
    }

    #[inline(always)]
    #[tactic(auto, using(crate::proofs::PartLaws::members_count))]
    fn members_left(members: &Members<'a>) -> usize {
        members.values.len()
    }

    #[inline(always)]
    fn fork(members: &Members<'a>) -> Members<'a> {
        *members
    }

    #[inline(always)]
    fn split_member(members: Members<'a>) -> Option<(StoredEntry<'a>, (Part<'a>, Members<'a>))> {
        let Member { key, value, later } = members.split_first()?;
        Some((StoredEntry::of_text(key), (value, later)))
    }
}
