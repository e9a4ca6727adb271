//! Writing a document front to back into a buffer with enough capacity for all of it.
//!
//! An entry word precedes its payload, so a payload's length must be known when its entry word is
//! written; it is read back from there when the payload is written. The length of a nested
//! container is derived from that of the enclosing container, to avoid measuring it again
//! completely.

ghost use Rattle.std.specs.Prelude.{◌≡◌, ◌<◌, ◌≤◌, ◌+◌, ◌++◌, ◌^◌, ◌⊎◌, ◌↔◌, ℕ, length, Err, IsOk};
ghost use Rattle.std.specs.Prelude.{vec_capacity, IfErr, OnOk, OnErr};
ghost use Rattle.jsonb_codec.specs.Shape as shapes;
ghost use Rattle.jsonb_codec.specs.Shape.{ShapeFits};
ghost use Rattle.jsonb_codec.specs.Words.{word, Shape, Shapes, payload, payloads, entries};
ghost use Rattle.jsonb_codec.specs.Words.{shape_type};
ghost use Rattle.jsonb_codec.specs.Words.{key_entries, key_payloads, body, document, FitsEntry};
ghost use Rattle.jsonb_codec.specs.Words.{LevelIs};
ghost use Rattle.jsonb_codec.specs.Words.{LevelHeld, HasRoom, AppendsBytes, HasWordsAt, CanWrite};
ghost use Rattle.jsonb_codec.specs.Words.{CanGoOn};

use super::measure::{item_size, measure_document, value_size};
use super::source::{Leaf, Level, Source};
use crate::constants::{
    ARRAY_CONTAINER_TAG, CONTAINER_TAG, JENTRY_OFF_LEN_MASK, OBJECT_CONTAINER_TAG,
    SCALAR_CONTAINER_TAG,
};
use crate::word::{read_word, tagged_word, word_bytes};
use jsonb_value::Error;

// The top levels are measured without limits: limits do not help wide, shallow documents.
const UNLIMITED_LEVELS: usize = 4;

/// Appends the document with a single growth of the buffer. `InvalidJsonb`, before any allocation,
/// if the value does not fit the format; `OutOfMemory` if the buffer cannot grow. After an error
/// the bytes of the buffer are unchanged.
pub fn append_document<S: Source>(
    buf: &mut Vec<u8>,
    level: Level<S::Leaf, S::Items, S::Object>,
) -> Result<(), Error>
    requires { (s : Shape) × LevelIs S.Leaf.code S.meaning level s }
    ensures appended { OnOk result ((s : Shape) → LevelIs S.Leaf.code S.meaning level s
        → ShapeFits s × (buf.new.items ≡ buf.old.items ++ document s)) }
    ensures held { OnOk result (LevelHeld S.meaning level) }
    ensures err { OnErr result (buf.new.items ≡ buf.old.items) }
    ensures past { (result ≡ Err Error.InvalidJsonb)
        ↔ ((s : Shape) → LevelIs S.Leaf.code S.meaning level s → ShapeFits s → ⊥) }
    ensures memory { result ≡ Err Error.OutOfMemory
        → (s : Shape) → LevelIs S.Leaf.code S.meaning level s → ShapeFits s }
    ensures only { IfErr result (λ e. (e ≡ Error.InvalidJsonb) ⊎ (e ≡ Error.OutOfMemory)) }
    ensures room { (s : Shape) → LevelIs S.Leaf.code S.meaning level s → ShapeFits s
        → length buf.old.items + length (document s) ≤ vec_capacity buf.old → IsOk result }
{
    let size = measure_document::<S>(level)?;
    buf.try_reserve(size)?;
    match level {
        Level::Leaf(leaf) => {
            append_word(buf, SCALAR_CONTAINER_TAG);
            let _ = append_leaf_entry(buf, leaf);
            leaf.append_to(buf);
        }
        Level::Array(items) => append_array::<S>(buf, items, size, UNLIMITED_LEVELS),
        Level::Object(object) => append_object::<S>(buf, object, size, UNLIMITED_LEVELS),
    }
    Ok(())
}

/// Appends these bytes. The buffer must have the capacity.
#[inline(always)]
pub fn append_bytes(out: &mut Vec<u8>, bytes: &[u8])
    requires { HasRoom out.old bytes.now }
    ensures { AppendsBytes out.old out.new bytes.now }
{
    let Ok(()) = out.extend_from_slice(bytes) else {
        unreachable!();
    };
}

/// Appends one word. The buffer must have the capacity.
#[tactic(auto, unfolding(crate::specs::WordBytes::word))]
#[inline(always)]
pub fn append_word(out: &mut Vec<u8>, number: u32)
    requires { HasRoom out.old (word number) }
    ensures { AppendsBytes out.old out.new (word number) }
{
    append_bytes(out, &word_bytes(number));
}

// The length in the container's entry word that was written at index `entry`.
#[inline(always)]
fn entry_size(out: &Vec<u8>, entry: usize) -> usize
    requires { (n : ℕ)
        × ((n < 2 ^ 28) × HasWordsAt entry (word (CONTAINER_TAG + n)) out.now.items) }
    ensures { (n : ℕ) → n < 2 ^ 28 → HasWordsAt entry (word (CONTAINER_TAG + n)) out.now.items
        → result ≡ n }
{
    let Ok(word) = read_word(out, entry) else {
        unreachable!();
    };
    (word & JENTRY_OFF_LEN_MASK) as usize
}

// Appends the payload of an array, which has `size` bytes.
#[cycle(append)]
fn append_array<S: Source>(out: &mut Vec<u8>, items: S::Items, size: usize, unlimited_levels: usize)
    requires { (ss : Shapes) × (S.meaning.items items ss
        × CanWrite out.old (shapes.array ss) size) }
    ensures { (ss : Shapes) → S.meaning.items items ss
        → AppendsBytes out.old out.new (payload (shapes.array ss)) }
{
    let count = S::count(items);
    append_word(out, tagged_word(ARRAY_CONTAINER_TAG, count));
    let words = out.len();
    append_item_entries::<S>(out, items, size - 4 - 4 * count, unlimited_levels);
    append_items::<S>(out, items, words, unlimited_levels.saturating_sub(1));
}

// Appends the payload of an object, which has `size` bytes.
#[cycle(append)]
fn append_object<S: Source>(
    out: &mut Vec<u8>,
    object: S::Object,
    size: usize,
    unlimited_levels: usize,
)
    requires { (ss : Shapes) × (S.meaning.object object ss
        × CanWrite out.old (shapes.object ss) size) }
    ensures { (ss : Shapes) → S.meaning.object object ss
        → AppendsBytes out.old out.new (payload (shapes.object ss)) }
{
    let members = S::members(object);
    let count = S::members_left(&members);
    append_word(out, tagged_word(OBJECT_CONTAINER_TAG, count));
    append_key_entries::<S>(out, S::fork(&members));
    let words = out.len();
    append_value_entries::<S>(
        out,
        S::fork(&members),
        size - 4 - 8 * count,
        unlimited_levels,
    );
    append_keys::<S>(out, S::fork(&members));
    append_values::<S>(out, members, words, unlimited_levels.saturating_sub(1));
}

// Appends the entry words of items, whose payloads have `size` bytes in total.
#[inline(always)]
fn append_item_entries<S: Source>(
    out: &mut Vec<u8>,
    items: S::Items,
    size: usize,
    unlimited_levels: usize,
)
    requires { (ss : Shapes) × (S.meaning.items items ss
        × (CanGoOn out.old ss (entries ss) × (size ≡ body ss))) }
    ensures { (ss : Shapes) → S.meaning.items items ss
        → AppendsBytes out.old out.new (entries ss) }
{
    let mut left = items;
    let mut size_left = size;
    while let Some((item, others)) = S::split_item(left) {
        size_left -= match S::level(item) {
            Level::Leaf(leaf) => append_leaf_entry(out, leaf),
            container => {
                let size = item_size::<S>(item, container, others, size_left, unlimited_levels);
                append_container_entry(out, size)
            }
        };
        left = others;
    }
}

// Appends the entry words of values, whose payloads have `size` bytes in total, together with their
// keys.
#[inline(always)]
fn append_value_entries<S: Source>(
    out: &mut Vec<u8>,
    members: S::Members,
    size: usize,
    unlimited_levels: usize,
)
    requires { (ss : Shapes) × (S.meaning.members members ss
        × (CanGoOn out.old ss (entries ss) × (size ≡ body ss))) }
    ensures { (ss : Shapes) → S.meaning.members members ss
        → AppendsBytes out.old out.new (entries ss) }
{
    let mut left = members;
    let mut size_left = size;
    while let Some((key, (value, others))) = S::split_member(left) {
        size_left -= key.len();
        size_left -= match S::level(value) {
            Level::Leaf(leaf) => append_leaf_entry(out, leaf),
            container => {
                let size = value_size::<S>(value, container, &others, size_left, unlimited_levels);
                append_container_entry(out, size)
            }
        };
        left = others;
    }
}

// Appends the entry word of a leaf; returns its payload length.
#[inline(always)]
fn append_leaf_entry<L: Leaf>(out: &mut Vec<u8>, leaf: L) -> usize
    requires short { length (L.code leaf).1 < 2 ^ 28 }
    requires room { HasRoom out.old (word ((L.code leaf).0 + length (L.code leaf).1)) }
    ensures written { AppendsBytes out.old out.new
        (word ((L.code leaf).0 + length (L.code leaf).1)) }
    ensures size { result ≡ length (L.code leaf).1 }
{
    let size = leaf.len();
    append_word(out, tagged_word(leaf.type_code(), size));
    size
}

// Appends a container's entry word; returns its payload length.
#[inline(always)]
fn append_container_entry(out: &mut Vec<u8>, size: usize) -> usize
    requires short { size < 2 ^ 28 }
    requires room { HasRoom out.old (word (CONTAINER_TAG + size)) }
    ensures written { AppendsBytes out.old out.new (word (CONTAINER_TAG + size)) }
    ensures size { result ≡ size }
{
    append_word(out, tagged_word(CONTAINER_TAG, size));
    size
}

// Appends the entry words of keys.
#[inline(always)]
fn append_key_entries<S: Source>(out: &mut Vec<u8>, members: S::Members)
    requires { (ss : Shapes) × (S.meaning.members members ss
        × CanGoOn out.old ss (key_entries ss)) }
    ensures { (ss : Shapes) → S.meaning.members members ss
        → AppendsBytes out.old out.new (key_entries ss) }
{
    let mut left = members;
    while let Some((key, (_, others))) = S::split_member(left) {
        let _ = append_leaf_entry(out, key);
        left = others;
    }
}

// Appends the keys.
#[inline(always)]
fn append_keys<S: Source>(out: &mut Vec<u8>, members: S::Members)
    requires { (ss : Shapes) × (S.meaning.members members ss
        × CanGoOn out.old ss (key_payloads ss)) }
    ensures { (ss : Shapes) → S.meaning.members members ss
        → AppendsBytes out.old out.new (key_payloads ss) }
{
    let mut left = members;
    while let Some((key, (_, others))) = S::split_member(left) {
        key.append_to(out);
        left = others;
    }
}

// Appends the payloads of items, whose entry words are at index `words`.
#[cycle(append)]
#[inline(always)]
fn append_items<S: Source>(
    out: &mut Vec<u8>,
    items: S::Items,
    words: usize,
    unlimited_levels: usize,
)
    requires { (ss : Shapes) × (S.meaning.items items ss
        × (CanGoOn out.old ss (payloads ss) × HasWordsAt words (entries ss) out.old.items)) }
    ensures { (ss : Shapes) → S.meaning.items items ss
        → AppendsBytes out.old out.new (payloads ss) }
{
    let mut left = items;
    let mut entry = words;
    while let Some((item, others)) = S::split_item(left) {
        append_child::<S>(out, item, entry, unlimited_levels);
        entry += 4;
        left = others;
    }
}

// Appends the payloads of values, whose entry words are at index `words`.
#[cycle(append)]
#[inline(always)]
fn append_values<S: Source>(
    out: &mut Vec<u8>,
    members: S::Members,
    words: usize,
    unlimited_levels: usize,
)
    requires { (ss : Shapes) × (S.meaning.members members ss
        × (CanGoOn out.old ss (payloads ss) × HasWordsAt words (entries ss) out.old.items)) }
    ensures { (ss : Shapes) → S.meaning.members members ss
        → AppendsBytes out.old out.new (payloads ss) }
{
    let mut left = members;
    let mut entry = words;
    while let Some((_, (value, others))) = S::split_member(left) {
        append_child::<S>(out, value, entry, unlimited_levels);
        entry += 4;
        left = others;
    }
}

// Appends the payload of a child, whose entry word is at index `entry`.
#[cycle(append)]
#[inline(always)]
fn append_child<S: Source>(
    out: &mut Vec<u8>,
    child: S::Child,
    entry: usize,
    unlimited_levels: usize,
)
    requires { (s : Shape) × (S.meaning.child child s × (FitsEntry s
        × (HasRoom out.old (payload s)
        × HasWordsAt entry (word (shape_type s + length (payload s))) out.old.items))) }
    ensures { (s : Shape) → S.meaning.child child s → AppendsBytes out.old out.new (payload s) }
{
    match S::level(child) {
        Level::Leaf(leaf) => leaf.append_to(out),
        Level::Array(items) => {
            let size = entry_size(out, entry);
            append_array::<S>(out, items, size, unlimited_levels);
        }
        Level::Object(object) => {
            let size = entry_size(out, entry);
            append_object::<S>(out, object, size, unlimited_levels);
        }
    }
}
