//! The document of a JSON text, without a value in between.
//!
//! The reader calls the tape as its sink. The tape stores the payloads of scalars one after
//! another, in the order of the text, and the place of each container. Where a container closes,
//! its head is made, since all counts and lengths are known then: its header, entry words and keys.
//! The document is the payloads, with each head put in at its place, and is written front to back
//! where the text ends. Only an object whose keys do not ascend keeps the parts of its members, in
//! the order of the keys. No step takes stack for the depth of the text.

ghost use Rattle.std.specs.Prelude.{◌≡◌, ◌⊎◌, ◌↔◌, ◌≤◌, ◌<◌, ◌+◌, ◌++◌, List, [], ◌∷◌, ℕ, true};
ghost use Rattle.std.specs.Prelude.{None, Err, chars, drop, length, take, IfErr, IfOk, IfNone};
ghost use Rattle.std.specs.Prelude.{IfSome, OnOk, ◌^◌, false};
ghost use Rattle.jsonb_value.specs.declared.error.Error.TheVariants.{OutOfMemory, InvalidJson};
ghost use Rattle.jsonb_value.specs.declared.error.Error.TheVariants.{InvalidJsonb};
ghost use Rattle.jsonb_value.specs.Json.Syntax.{Entries, JsonText, pairs};
ghost use Rattle.jsonb_value.specs.TextDepth.{text_depth};
ghost use Rattle.jsonb_value.specs.Tree.{Tree, object};
ghost use Rattle.jsonb_value.specs.WellFormed.{IsTree};
ghost use Rattle.jsonb_value.specs.Reader.Resume.{Content, going, items, members, at_key, put};
ghost use Rattle.jsonb_value.specs.Reader.Resume.{Adds};
ghost use Rattle.jsonb_codec.specs.Shape.{AllFit, payloads};
ghost use Rattle.jsonb_codec.specs.Canon.{canon, Fits};
ghost use Rattle.jsonb_codec.specs.Keys.{IsKey};
ghost use Rattle.jsonb_codec.specs.Tape.{AreOpen, Grows, IsAround, IsEndedIfFit, IsMade, IsScalar};
ghost use Rattle.jsonb_codec.specs.Tape.{Joined, KeyIs, LastBelow, MembersAre, tape_is};
ghost use Rattle.jsonb_codec.specs.Tape.{shapes_of, values_of};
ghost use Rattle.jsonb_codec.specs.declared.tape.place.Kind.TheVariants as kinds;

mod entry;
mod key;
mod member;
mod place;
mod storage;
mod write;

use crate::constants::{CONTAINER_TAG, FALSE_TAG, NULL_TAG, NUMBER_TAG, STRING_TAG, TRUE_TAG};
use crate::word::word_bytes;
use entry::Entry;
use jsonb_value::layer::refusal_within;
use jsonb_value::{Error, Exponents, Number, ParseError, Sink, read_text_within};
use key::{Key, bytes_of, compare_keys, prefix_of};
use member::{Member, append_in_order, order_of};
use place::{Frame, Head, Kind, Part, Place};
use std::alloc::Global;
use std::cmp::Ordering;
use storage::Storage;
use write::write_document;

/// What was read of a text: what is stored; the places of containers; the entry words of items and
/// the members of open containers, those of the innermost last; the order of the members of the
/// object that was put in order last, whose memory the next one takes; the innermost container's
/// frame; and the whole value once it is read, `None` if something inside it does not fit.
#[derive(Drop)]
pub struct Tape<'a> {
    alloc: Global,
    storage: Storage,
    places: Vec<Place>,
    words: Vec<u8>,
    members: Vec<Member<'a>>,
    order: Vec<usize>,
    inner: Frame,
    whole: Option<Entry>,
}

impl<'a> Tape<'a> {
    /// Nothing has been read.
    pub fn new(alloc: Global) -> Tape<'a>
        ensures { tape_is result (going []) }
    {
        Tape {
            alloc,
            storage: Storage::new(alloc),
            places: Vec::new(alloc),
            words: Vec::new(alloc),
            members: Vec::new(alloc),
            order: Vec::new(alloc),
            inner: Frame {
                kind: Kind::Whole,
                place: 0,
                start: 0,
                words: 0,
                members: 0,
                ascends: true,
                fits: true,
            },
            whole: None,
        }
    }

    // Adds a value to the innermost container. `None` is one in which something does not fit.
    #[inline(always)]
    fn add(&mut self, entry: Option<Entry>) -> Result<(), Error>
        ensures ok { OnOk result ((ps qs : List Place) (a : ℕ) (cs : List Content) (t : Tree)
            → self.old.places.items ≡ ps ++ qs → AreOpen self.old.storage self.old.inner ps
            self.old.words.items self.old.members.items a cs
            → a ≤ length self.old.storage.payload.items
            → IsMade self.old.storage entry a qs (length self.old.storage.payload.items) t
            → tape_is self.new (put t cs)) }
        ensures memory { IfErr result (λ e. e ≡ OutOfMemory) }
    {
        match self.inner.kind {
            Kind::Whole => self.whole = entry,
            Kind::Array => self.add_item(entry)?,
            Kind::Object => self.set_value(entry),
        }
        Ok(())
    }

    // Adds an item to the innermost container, an array.
    #[inline(always)]
    fn add_item(&mut self, entry: Option<Entry>) -> Result<(), Error>
        requires { self.old.inner.kind ≡ kinds.Array }
        ensures ok { OnOk result ((ps qs : List Place) (a : ℕ) (cs : List Content) (t : Tree)
            → self.old.places.items ≡ ps ++ qs → AreOpen self.old.storage self.old.inner ps
            self.old.words.items self.old.members.items a cs
            → a ≤ length self.old.storage.payload.items
            → IsMade self.old.storage entry a qs (length self.old.storage.payload.items) t
            → tape_is self.new (put t cs)) }
        ensures memory { IfErr result (λ e. e ≡ OutOfMemory) }
    {
        let Some(word) = word_of(entry) else {
            self.inner.fits = false;
            return Ok(());
        };
        self.words.extend_from_slice(&word_bytes(word))?;
        Ok(())
    }

    // Sets the value of the last member of the innermost container, an object.
    #[inline(always)]
    fn set_value(&mut self, entry: Option<Entry>)
        requires { self.old.inner.kind ≡ kinds.Object }
        ensures { (ps qs : List Place) (a : ℕ) (cs : List Content) (t : Tree)
            → self.old.places.items ≡ ps ++ qs → AreOpen self.old.storage self.old.inner ps
            self.old.words.items self.old.members.items a cs
            → a ≤ length self.old.storage.payload.items
            → IsMade self.old.storage entry a qs (length self.old.storage.payload.items) t
            → tape_is self.new (put t cs) }
    {
        let word = word_of(entry);
        self.inner.fits = fits_with(self.inner.fits, word);
        let count = self.members.len();
        if count > 0 {
            let member = self.members[count - 1];
            let part = Part {
                end: self.storage.payload.len(),
                last: self.places.len(),
                size: size_of(entry),
                ..member.part
            };
            self.members[count - 1] = Member {
                word,
                part,
                ..member
            };
        }
    }

    // Adds a scalar of this type and payload.
    #[inline(always)]
    fn add_scalar(&mut self, type_code: u32, payload: &[u8]) -> Result<(), Error>
        requires { type_code ≤ 0x70000000 }
        ensures ok { OnOk result ((t : Tree) → IsScalar type_code payload.now t
            → Adds tape_is self.old self.new t) }
        ensures memory { IfErr result (λ e. e ≡ OutOfMemory) }
    {
        self.storage.payload.extend_from_slice(payload)?;
        self.add(Some(Entry {
            type_code,
            size: payload.len(),
        }))
    }

    // Asks for memory before the first container.
    #[inline(always)]
    fn make_room(&mut self) -> Result<(), Error>
        ensures ok { OnOk result ((cs : List Content) → tape_is self.old (going cs)
            → tape_is self.new (going cs)) }
        ensures memory { IfErr result (λ e. e ≡ OutOfMemory) }
    {
        if !self.places.is_empty() {
            return Ok(());
        }
        self.reserve()
    }

    // Asks at once for the memory that a small text takes.
    #[cold]
    #[inline(never)]
    fn reserve(&mut self) -> Result<(), Error>
        ensures ok { OnOk result ((cs : List Content) → tape_is self.old (going cs)
            → tape_is self.new (going cs)) }
        ensures memory { IfErr result (λ e. e ≡ OutOfMemory) }
    {
        self.storage.payload.reserve(256)?;
        self.storage.heads.reserve(256)?;
        self.words.reserve(64)?;
        self.members.reserve(24)?;
        self.places.reserve(16)?;
        Ok(())
    }

    // Begins a container.
    #[inline(always)]
    fn begin(&mut self, kind: Kind) -> Result<(), Error>
        ensures array { OnOk result ((cs : List Content) → kind ≡ kinds.Array
            → tape_is self.old (going cs) → tape_is self.new (going (items [] ∷ cs))) }
        ensures object { OnOk result ((cs : List Content) → kind ≡ kinds.Object
            → tape_is self.old (going cs) → tape_is self.new (going (members [] ∷ cs))) }
        ensures memory { IfErr result (λ e. e ≡ OutOfMemory) }
    {
        self.make_room()?;
        let frame = Frame {
            kind,
            place: self.places.len(),
            start: self.storage.payload.len(),
            words: self.words.len(),
            members: self.members.len(),
            ascends: true,
            fits: true,
        };
        self.places.extend_from_slice(&[Place::Open(self.inner)])?;
        self.inner = frame;
        Ok(())
    }

    // Closes the innermost container, whose head was stored since `start`, with the length of its
    // payload. The payloads after it go on at `until`.
    #[inline(always)]
    fn close(&mut self, start: usize, until: usize, size: Option<usize>) -> Result<(), Error>
        requires { (g : Frame) × ((cs : List Content) × IsAround self.old g cs) }
        ensures ok { OnOk result ((g : Frame) (cs : List Content) (t : Tree)
            → IsAround self.old g cs → IsEndedIfFit self.old.storage start until
            (drop (self.old.inner.place + 1) self.old.places.items) size t
            → tape_is self.new (put t cs)) }
        ensures memory { IfErr result (λ e. e ≡ OutOfMemory) }
    {
        let frame = self.inner;
        let Place::Open(outer) = self.places[frame.place] else {
            unreachable!();
        };
        self.inner = outer;
        self.words.truncate(frame.words);
        self.members.truncate(frame.members);
        let Some(size) = size else {
            self.places.truncate(frame.place);
            return self.add(None);
        };
        self.places[frame.place] = Place::Head(Head {
            at: frame.start,
            until,
            start,
            end: self.storage.heads.len(),
        });
        self.add(Some(Entry {
            type_code: CONTAINER_TAG,
            size,
        }))
    }

    // Adds a key to the innermost container, an object.
    #[inline(always)]
    fn add_key(&mut self, key: Key<'a>, prefix: u64) -> Result<(), Error>
        requires { (bytes : List ℕ) × ((front : Entries) × ((cs : List Content)
            × (KeyIs self.old.storage key prefix bytes
            × tape_is self.old (going (members front ∷ cs))))) }
        ensures ok { OnOk result ((front : Entries) (cs : List Content) (bytes : List ℕ)
            → tape_is self.old (going (members front ∷ cs))
            → KeyIs self.old.storage key.entry prefix bytes
            → tape_is self.new (going (at_key front bytes ∷ cs))) }
        ensures memory { IfErr result (λ e. e ≡ OutOfMemory) }
    {
        let ascends = self.still_ascends(key, prefix);
        self.inner.ascends = ascends;
        let start = self.storage.payload.len();
        let first = self.places.len();
        self.members.extend_from_slice(&[Member {
            key,
            prefix,
            word: None,
            part: Part {
                start,
                end: start,
                first,
                last: first,
                size: 0,
            },
        }])?;
        Ok(())
    }

    // Whether all keys of the innermost container ascend with this one.
    #[inline(always)]
    fn still_ascends(&self, key: Key<'_>, prefix: u64) -> bool
        requires key { IsKey self.now.storage.spelled.items key }
        requires members { (front : Entries) × ((cs : List Content)
            × tape_is self.now (going (members front ∷ cs))) }
        ensures before { result ≡ true → self.now.inner.ascends ≡ true }
        ensures last { result ≡ true → (bytes : List ℕ) (base : ℕ) (ps : List Place)
            (read : Entries) → KeyIs self.now.storage key.entry prefix bytes
            → MembersAre self.now.storage base ps
            (drop self.now.inner.members self.now.members.items) read
            → LastBelow None read bytes }
    {
        if !self.inner.ascends {
            return false;
        }
        let members = &self.members[self.inner.members..];
        let Some((last, _others)) = members.split_last() else {
            return true;
        };
        let spelled = &self.storage.spelled;
        let before = bytes_of(last.key, spelled);
        compare_keys(last.prefix, before, prefix, bytes_of(key, spelled)) == Ordering::Less
    }

    // Puts the payloads of the members from `sorted` on in their order. The places inside the
    // innermost container are moved, and its parts put in their stead.
    fn put_in_order(&mut self, sorted: usize) -> Result<(), Error>
        requires inside { self.old.inner.place < length self.old.places.items }
        requires sorted { sorted ≤ length self.old.members.items }
        requires members { (front : Entries) × (AllFit (shapes_of (values_of front))
            × MembersAre self.old.storage (self.old.inner.place + 1) self.old.places.items
            (drop sorted self.old.members.items) front) }
        ensures grows { OnOk result (Grows self.old.storage self.new.storage) }
        ensures payload { OnOk result (self.new.storage.payload ≡ self.old.storage.payload) }
        ensures heads { OnOk result (self.new.storage.heads ≡ self.old.storage.heads) }
        ensures words { OnOk result (self.new.words ≡ self.old.words) }
        ensures others { OnOk result (self.new.members ≡ self.old.members) }
        ensures inner { OnOk result (self.new.inner ≡ self.old.inner) }
        ensures before { OnOk result ((ps : List Place) × (self.new.places.items
            ≡ take (self.old.inner.place + 1) self.old.places.items ++ ps)) }
        ensures joined { OnOk result ((front : Entries) (b : ℕ)
            → b ≤ length self.old.storage.payload.items → AllFit (shapes_of (values_of front))
            → MembersAre self.old.storage (self.old.inner.place + 1) self.old.places.items
            (drop sorted self.old.members.items) front
            → Joined self.new.storage b (drop (self.old.inner.place + 1) self.new.places.items) b
            (payloads (shapes_of (values_of front)))) }
        ensures memory { IfErr result (λ e. e ≡ OutOfMemory) }
    {
        let inside = self.inner.place + 1;
        let moved = self.storage.moved.len();
        self.storage
            .moved
            .extend_from_slice(&self.places[inside..])?;
        self.places.truncate(inside);
        for index in sorted..self.members.len() {
            let part = self.members[index].part;
            if part.size > 0 {
                self.places.push(Place::Part(Part {
                    first: moved + (part.first - inside),
                    last: moved + (part.last - inside),
                    ..part
                }))?;
            }
        }
        Ok(())
    }

    // Ends an object whose keys did not ascend.
    #[inline(never)]
    fn end_unordered(&mut self) -> Result<(), Error>
        requires { (front : Entries) × ((cs : List Content)
            × tape_is self.old (going (members front ∷ cs))) }
        ensures ok { OnOk result ((front : Entries) (cs : List Content)
            → tape_is self.old (going (members front ∷ cs))
            → tape_is self.new (put (object (pairs front)) cs)) }
        ensures memory { IfErr result (λ e. e ≡ OutOfMemory) }
    {
        let first = self.inner.members;
        order_of(
            self.alloc,
            &mut self.order,
            &self.members[first..],
            &self.storage,
        )?;
        let sorted = self.members.len();
        append_in_order(&mut self.members, first, &self.order)?;
        let start = self.storage.heads.len();
        let size = self.storage.push_object_head(&self.members[sorted..])?;
        if size.is_none() {
            return self.close(start, 0, size);
        }
        self.put_in_order(sorted)?;
        let until = self.storage.payload.len();
        self.close(start, until, size)
    }
}

// The entry word of a value, `None` if the value does not fit.
#[inline(always)]
fn word_of(entry: Option<Entry>) -> Option<u32>
    ensures some { IfSome result (λ word. IfSome entry
        (λ e. (word ≡ e.type_code + e.size) × (e.size < 2 ^ 28))) }
    ensures none { IfNone result (IfSome entry (λ e. 2 ^ 28 ≤ e.size)) }
    ensures made { IfNone entry (result ≡ None) }
{
    entry?.word()
}

// Whether all values fit, with one more that has this entry word.
#[inline(always)]
fn fits_with(fits: bool, word: Option<u32>) -> bool
    ensures some { IfSome word (λ w. result ≡ fits) }
    ensures none { IfNone word (result ≡ false) }
{
    fits && word.is_some()
}

// The length of the payload of a value, 0 if something inside it does not fit.
#[inline(always)]
fn size_of(entry: Option<Entry>) -> usize
    ensures { IfSome entry (λ e. result ≡ e.size) }
{
    match entry {
        Some(entry) => entry.size,
        None => 0,
    }
}

impl<'a> Sink<'a> for Tape<'a> {
    ghost use Rattle.jsonb_codec.specs.Tape.{tape_is};

    ghost is = { tape_is };

    #[inline(always)]
    fn null(&mut self) -> Result<(), Error> {
        self.add_scalar(NULL_TAG, &[])
    }

    #[inline(always)]
    fn truth(&mut self, truth: bool) -> Result<(), Error> {
        self.add_scalar(if truth { TRUE_TAG } else { FALSE_TAG }, &[])
    }

    #[inline(always)]
    fn number(&mut self, value: Number) -> Result<(), Error> {
        let size = value.compact_encode(&mut self.storage.payload)?;
        self.add(Some(Entry {
            type_code: NUMBER_TAG,
            size,
        }))
    }

    #[inline(always)]
    fn string(&mut self, content: &'a str) -> Result<(), Error> {
        self.add_scalar(STRING_TAG, content.as_bytes())
    }

    fn spelled(&mut self, content: &str) -> Result<(), Error> {
        self.add_scalar(STRING_TAG, content.as_bytes())
    }

    #[inline(always)]
    fn key(&mut self, content: &'a str) -> Result<(), Error> {
        self.add_key(Key::Text(content), prefix_of(content.as_bytes()))
    }

    fn spelled_key(&mut self, content: &str) -> Result<(), Error> {
        let prefix = prefix_of(content.as_bytes());
        let start = self.storage.spelled.len();
        self.storage.spelled.extend_from_slice(content.as_bytes())?;
        let end = self.storage.spelled.len();
        self.add_key(Key::Spelled { start, end }, prefix)
    }

    #[inline(always)]
    fn begin_array(&mut self) -> Result<(), Error> {
        self.begin(Kind::Array)
    }

    fn end_array(&mut self) -> Result<(), Error> {
        let frame = self.inner;
        let start = self.storage.heads.len();
        if !frame.fits {
            return self.close(start, frame.start, None);
        }
        let size = self.storage.push_array_head(&self.words[frame.words..])?;
        self.close(start, frame.start, size)
    }

    #[inline(always)]
    fn begin_object(&mut self) -> Result<(), Error> {
        self.begin(Kind::Object)
    }

    fn end_object(&mut self) -> Result<(), Error> {
        let frame = self.inner;
        if !frame.ascends {
            return self.end_unordered();
        }
        let start = self.storage.heads.len();
        let size = self
            .storage
            .push_object_head(&self.members[frame.members..])?;
        self.close(start, frame.start, size)
    }
}

/// The canonical document of a JSON text, with exponents if they are allowed. `InvalidJson` if the
/// text is not accepted by `parse_value`, or with exponents by `parse_value_with_exponents`;
/// `InvalidJsonb` if a payload, a key or a count of its value exceeds its limit; `OutOfMemory` if
/// an allocation fails. Reading and writing take no stack for the depth of the text.
pub fn encode_text(alloc: Global, text: &str, exponents: Exponents) -> Result<Vec<u8>, Error>
    ensures ok { IfOk result (λ document. (t : Tree) × (JsonText exponents (chars text.now) t
        × (IsTree t × (Fits t × (document.items ≡ canon t))))) }
    ensures invalid { result ≡ Err InvalidJson
        → (t : Tree) → JsonText exponents (chars text.now) t → ⊥ }
    ensures past { result ≡ Err InvalidJsonb
        → (t : Tree) × (JsonText exponents (chars text.now) t × (Fits t → ⊥)) }
    ensures only { IfErr result
        (λ e. (e ≡ InvalidJson) ⊎ ((e ≡ InvalidJsonb) ⊎ (e ≡ OutOfMemory))) }
{
    // No more brackets are open than there are bytes.
    encode_to_depth(alloc, text, exponents, text.len())
}

/// The canonical document of a JSON text that nests at most `depth` deep, as `encode_text` makes
/// it. `TooDeep` exactly if more of its brackets are open at once, those in strings not counted,
/// and before any other refusal; else `Refused` with the error of `encode_text`.
pub fn encode_text_within(
    alloc: Global,
    text: &str,
    exponents: Exponents,
    depth: usize,
) -> Result<Vec<u8>, ParseError>
    ensures ok { IfOk result (λ document. (t : Tree) × (JsonText exponents (chars text.now) t
        × (IsTree t × (Fits t × (document.items ≡ canon t))))) }
    ensures deep { (result ≡ Err ParseError.TooDeep) ↔ (depth < text_depth text.now) }
    ensures invalid { result ≡ Err (ParseError.Refused InvalidJson)
        → (t : Tree) → JsonText exponents (chars text.now) t → ⊥ }
    ensures past { result ≡ Err (ParseError.Refused InvalidJsonb)
        → (t : Tree) × (JsonText exponents (chars text.now) t × (Fits t → ⊥)) }
    ensures only { IfErr result (λ e. (e ≡ ParseError.TooDeep)
        ⊎ ((e ≡ ParseError.Refused InvalidJson) ⊎ ((e ≡ ParseError.Refused InvalidJsonb)
        ⊎ (e ≡ ParseError.Refused OutOfMemory)))) }
{
    match encode_to_depth(alloc, text, exponents, depth) {
        Ok(document) => Ok(document),
        Err(error) => Err(refusal_within(text.as_bytes(), depth, error)),
    }
}

// The document of a text as `encode_text` makes it, if the text nests at most `depth` deep;
// `InvalidJson` also if it is deeper.
fn encode_to_depth(
    alloc: Global,
    text: &str,
    exponents: Exponents,
    depth: usize,
) -> Result<Vec<u8>, Error>
    ensures ok { IfOk result (λ document. (t : Tree) × (JsonText exponents (chars text.now) t
        × (IsTree t × (Fits t × (document.items ≡ canon t))))) }
    ensures within { IfOk result (λ document. text_depth text.now ≤ depth) }
    ensures invalid { result ≡ Err InvalidJson → text_depth text.now ≤ depth
        → (t : Tree) → JsonText exponents (chars text.now) t → ⊥ }
    ensures past { result ≡ Err InvalidJsonb
        → (t : Tree) × (JsonText exponents (chars text.now) t × (Fits t → ⊥)) }
    ensures only { IfErr result
        (λ e. (e ≡ InvalidJson) ⊎ ((e ≡ InvalidJsonb) ⊎ (e ≡ OutOfMemory))) }
{
    let mut tape = Tape::new(alloc);
    read_text_within(alloc, &mut tape, text, exponents, depth)?;
    match tape.whole {
        Some(entry) => write_document(alloc, &tape.storage, &tape.places, entry),
        None => Err(Error::InvalidJsonb),
    }
}
