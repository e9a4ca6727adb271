//! Iterators over the children of an array or object, read from the bytes one by one.

ghost use Rattle.std.specs.Prelude.{◌≡◌, ◌<◌, ◌≤◌, ◌^◌, ℕ, List, length, IfOk, IfErr, IfSome};
ghost use Rattle.jsonb.specs.Walk.{pair_items};
ghost use Rattle.jsonb.specs.Words.{YieldsFirstBy, Advances, item_count, raw_bytes, ItemView};
ghost use Rattle.jsonb.specs.Words.{result_view, pair_view, IsEntryIn, entries_of, entry_read};
ghost use Rattle.jsonb.specs.Words.{entry_there, Walk, item_read};
ghost use Rattle.jsonb.specs.Words.{key_of, pair_read, items_read, container_tag, child_run};
ghost use Rattle.jsonb.specs.Words.{children_walk, pairs_walk, IsBounded, Tree, Doc, WalksChildren};
ghost use Rattle.jsonb.specs.Words.{WalksEntries, WalksPairs, WalksMembers};

use crate::entries::{Cursor, Entry, count_under};
use crate::item::{JsonbItem, item_of_entry};
use crate::raw::RawJsonb;
use jsonb_codec::constants::{ARRAY_CONTAINER_TAG, OBJECT_CONTAINER_TAG, STRING_TAG};
use jsonb_value::Error;
use std::marker::{Model, PhantomData};
use std::str;

// The item of an entry, or the error with which the entry was read.
fn item_read<'a>(bytes: &'a [u8], entry: Result<Entry, Error>) -> Result<JsonbItem<'a>, Error>
    requires { IfOk entry (IsEntryIn bytes.now) }
    ensures { result_view result ≡ item_read (entry_read bytes.entry.now entry) }
{
    item_of_entry(bytes, entry?)
}

/// Which children of a container an iterator yields.
#[derive(Clone, Copy)]
pub enum ChildKind {
    ArrayItem,
    ObjectKey,
    ObjectValue,
}

impl ChildKind {
    // The header's tag of the containers that have such children.
    fn container_tag(self) -> u32
        ensures { result ≡ container_tag self }
    {
        match self {
            Self::ArrayItem => ARRAY_CONTAINER_TAG,
            Self::ObjectKey | Self::ObjectValue => OBJECT_CONTAINER_TAG,
        }
    }

    // The entries of these children in a container of `count` items or pairs.
    fn entries<'a>(self, bytes: &'a [u8], count: usize) -> Result<Cursor<'a>, Error>
        requires count { count < 2 ^ 29 }
        requires header { 4 ≤ length bytes.now }
        ensures { result ≡ child_run self bytes.entry.now count }
    {
        match self {
            Self::ArrayItem => Ok(Cursor::over_items(bytes, count)),
            Self::ObjectKey => Ok(Cursor::over_keys(bytes, count)),
            Self::ObjectValue => Cursor::over_values(bytes, count),
        }
    }
}

/// The choice of children that an iterator's type makes.
pub trait Children: Drop {
    ghost use Rattle.jsonb.specs.declared.iterator.ChildKind.{ChildKind};

    ghost kind: { ChildKind };

    /// Which children these are.
    fn kind() -> ChildKind
        ensures { result ≡ kind };
}

/// The items of an array.
#[derive(Drop)]
pub struct ArrayItems {}

impl Children for ArrayItems {
    ghost use Rattle.jsonb.specs.declared.iterator.ChildKind.TheVariants.{ArrayItem};

    ghost kind = { ArrayItem };

    fn kind() -> ChildKind {
        ChildKind::ArrayItem
    }
}

/// The keys of an object, in stored order.
#[derive(Drop)]
pub struct ObjectKeys {}

impl Children for ObjectKeys {
    ghost use Rattle.jsonb.specs.declared.iterator.ChildKind.TheVariants.{ObjectKey};

    ghost kind = { ObjectKey };

    fn kind() -> ChildKind {
        ChildKind::ObjectKey
    }
}

/// The values of an object, in the order of their keys.
#[derive(Drop)]
pub struct ObjectValues {}

impl Children for ObjectValues {
    ghost use Rattle.jsonb.specs.declared.iterator.ChildKind.TheVariants.{ObjectValue};

    ghost kind = { ObjectValue };

    fn kind() -> ChildKind {
        ChildKind::ObjectValue
    }
}

/// An iterator over the items of an array.
pub type ArrayIterator<'a> = ItemIterator<'a, ArrayItems>;

/// An iterator over the keys of an object, each as the item of its entry.
pub type ObjectKeyIterator<'a> = ItemIterator<'a, ObjectKeys>;

/// An iterator over the values of an object.
pub type ObjectValueIterator<'a> = ItemIterator<'a, ObjectValues>;

/// The children of a container that are one item each, in stored order. On bytes that are not a
/// document an item can be an error, after which the iteration ends: `InvalidEOF` if its entry word
/// is cut off, `InvalidJsonb` if its payload runs past the end or its type is unknown, and
/// `InvalidUtf8`, `InvalidJsonbNumber` or `InvalidJsonbExtension` if its payload is invalid.
#[derive(Drop)]
pub struct ItemIterator<'a, C: Children> {
    entries: Cursor<'a>,
    count: usize,
    children: PhantomData<C>,
}

impl<'a, C: Children> Model for ItemIterator<'a, C> {
    ghost Value = { Walk ItemView };

    ghost view = { λ s. record { count = s.count; rest = items_read (entries_of s.entries) } };
}

impl<'a, C: Children> ItemIterator<'a, C> {
    /// An iterator over the children in these bytes, `None` for a header of another kind than that
    /// of their container. `InvalidEOF` if the header is cut off, or for values the entry word of a
    /// key; `InvalidJsonb` if the header is of no kind.
    pub fn new(raw: RawJsonb<'a>) -> Result<Option<Self>, Error>
        ensures walk { result ≡ children_walk C.kind (raw_bytes raw.entry) }

        // It yields at most as many items as the header counts, and an error only as the last.
        ensures bounded { IfOk result (λ o. IfSome o IsBounded) }

        // For a document of their container it yields the children and no error; for any other
        // document it is `None`.
        ensures document { (t : Tree) → Doc (raw_bytes raw.entry) t
            → WalksChildren C.kind t result }

        // The items have the types and payloads of the document's entries.
        ensures entries { (t : Tree) → Doc (raw_bytes raw.entry) t
            → WalksEntries C.kind (raw_bytes raw.entry) t result }
    {
        ItemIterator::over(raw)
    }

    // The iterator, if the header is that of the children's container.
    fn over(raw: RawJsonb<'a>) -> Result<Option<Self>, Error>
        ensures { result ≡ children_walk C.kind (raw_bytes raw.entry) }
    {
        let bytes = raw.as_bytes();
        let kind = C::kind();
        let Some(count) = count_under(bytes, kind.container_tag())? else {
            return Ok(None);
        };
        let entries = kind.entries(bytes, count)?;
        Ok(Some(ItemIterator {
            entries,
            count,
            children: PhantomData,
        }))
    }

    /// The count in the header, however many items were taken.
    pub fn len(&self) -> usize
        ensures { result ≡ self.now.count }
    {
        self.count
    }
}

impl<'a, C: Children> Iterator for ItemIterator<'a, C> {
    type Item = Result<JsonbItem<'a>, Error>;

    ghost next_gives = { YieldsFirstBy result_view (λ it. it.rest) };

    ghost remaining = { item_count (λ it. it.rest) };

    /// The next item. After an error there is no next item.
    fn next(&mut self) -> Option<Result<JsonbItem<'a>, Error>>
        ensures { Advances result_view self.old result self.new }
    {
        let entry = self.entries.next()?;
        match item_read(self.entries.bytes(), entry) {
            Ok(item) => Some(Ok(item)),
            Err(error) => {
                self.entries.end();
                Some(Err(error))
            }
        }
    }
}

// The key of an entry. `InvalidJsonb` if the entry is not a string, `InvalidUtf8` if its payload is
// not UTF-8.
#[tactic(auto, using(crate::proofs::Utf8::is_text_yes, crate::proofs::Utf8::is_text_no))]
fn key_of_entry<'a>(bytes: &'a [u8], entry: Entry) -> Result<&'a str, Error>
    requires { IsEntryIn bytes.now entry }
    ensures ok { IfOk result (λ key. key_of (entry_there bytes.entry.now entry) ≡ Ok key.now) }
    ensures err { IfErr result (λ e. key_of (entry_there bytes.entry.now entry) ≡ Err e) }
{
    if entry.type_code != STRING_TAG {
        return Err(Error::InvalidJsonb);
    }
    match str::from_utf8(entry.payload(bytes)) {
        Ok(key) => Ok(key),
        Err(_) => Err(Error::InvalidUtf8),
    }
}

// The key of one entry and the item of another, or the first error of the two.
fn pair_read<'a>(
    bytes: &'a [u8],
    key: Result<Entry, Error>,
    value: Result<Entry, Error>,
) -> Result<(&'a str, JsonbItem<'a>), Error>
    requires key { IfOk key (IsEntryIn bytes.now) }
    requires value { IfOk value (IsEntryIn bytes.now) }
    ensures { pair_view result
        ≡ pair_read (entry_read bytes.entry.now key, entry_read bytes.entry.now value) }
{
    Ok((key_of_entry(bytes, key?)?, item_read(bytes, value)?))
}

/// The pairs of an object, in stored order: each key with the item of its value. On bytes that are
/// not a document a pair can be an error, after which the iteration ends: `InvalidEOF` if an entry
/// word is cut off, `InvalidJsonb` if a payload runs past the end, a key is not a string or a
/// value's type is unknown, and `InvalidUtf8`, `InvalidJsonbNumber` or `InvalidJsonbExtension` if a
/// payload is invalid.
#[derive(Drop)]
pub struct ObjectIterator<'a> {
    keys: Cursor<'a>,
    values: Cursor<'a>,
    pair_count: usize,
}

impl<'a> Model for ObjectIterator<'a> {
    ghost Value = { Walk (List ℕ × ItemView) };

    ghost view = { λ s. record {
      count = s.pair_count;
      rest = pair_items (entries_of s.keys) (entries_of s.values);
    } };

    ghost invariant = { λ s. s.keys.bytes ≡ s.values.bytes };
}

impl<'a> ObjectIterator<'a> {
    /// An iterator over the pairs of the object in these bytes, `None` for the header of a scalar
    /// or an array. `InvalidEOF` if the header or the entry word of a key is cut off,
    /// `InvalidJsonb` if the header is of no kind.
    pub fn new(raw: RawJsonb<'a>) -> Result<Option<Self>, Error>
        ensures walk { result ≡ pairs_walk (raw_bytes raw.entry) }

        // It yields at most as many pairs as the header counts, and an error only as the last.
        ensures bounded { IfOk result (λ o. IfSome o IsBounded) }

        // For an object's document it yields the pairs and no error; for any other document it is
        // `None`.
        ensures document { (t : Tree) → Doc (raw_bytes raw.entry) t → WalksPairs t result }

        // The keys and values have the payloads, and the values the types, of the document's
        // entries.
        ensures entries { (t : Tree) → Doc (raw_bytes raw.entry) t
            → WalksMembers (raw_bytes raw.entry) t result }
    {
        ObjectIterator::over(raw)
    }

    // The iterator, if the header is that of an object.
    fn over(raw: RawJsonb<'a>) -> Result<Option<Self>, Error>
        ensures { result ≡ pairs_walk (raw_bytes raw.entry) }
    {
        let bytes = raw.as_bytes();
        let Some(count) = count_under(bytes, OBJECT_CONTAINER_TAG)? else {
            return Ok(None);
        };
        let values = Cursor::over_values(bytes, count)?;
        Ok(Some(ObjectIterator {
            keys: Cursor::over_keys(bytes, count),
            values,
            pair_count: count,
        }))
    }

    /// The count in the header, however many pairs were taken.
    pub fn len(&self) -> usize
        ensures { result ≡ self.now.count }
    {
        self.pair_count
    }
}

impl<'a> Iterator for ObjectIterator<'a> {
    type Item = Result<(&'a str, JsonbItem<'a>), Error>;

    ghost next_gives = { YieldsFirstBy pair_view (λ it. it.rest) };

    ghost remaining = { item_count (λ it. it.rest) };

    fn next(&mut self) -> Option<Result<(&'a str, JsonbItem<'a>), Error>>
        ensures { Advances pair_view self.old result self.new }
    {
        let key = self.keys.next()?;
        // There are as many values as keys, so both end together.
        let Some(value) = self.values.next() else {
            self.keys.end();
            return None;
        };
        match pair_read(self.keys.bytes(), key, value) {
            Ok(pair) => Some(Ok(pair)),
            Err(error) => {
                self.keys.end();
                Some(Err(error))
            }
        }
    }
}
