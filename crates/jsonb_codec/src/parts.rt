//! The parts of a checked document, one after another. Each part carries the proof of its check, so
//! nothing is checked again.

ghost use Rattle.std.specs.Prelude.{◌≡◌, ◌*◌, ◌<◌, ◌^◌, ℕ, List, length};
ghost use Rattle.jsonb_value.specs.Tree.{Pairs};
ghost use Rattle.jsonb_codec.specs.Doc.{Keys};
ghost use Rattle.jsonb_codec.specs.Parts.{IsSomePayload, AreSomeChildren, AreSomeMembers};
ghost use Rattle.jsonb_codec.specs.Parts.{IsSomeObject};

use crate::constants::{
    ARRAY_CONTAINER_TAG, CONTAINER_TAG, EXTENSION_TAG, NUMBER_TAG, OBJECT_CONTAINER_TAG, STRING_TAG,
};
use crate::word::{split_entry, split_header};
use jsonb_value::{ExtensionValue, Number};

/// The type of an entry, and its payload.
#[derive(Clone, Copy, Debug)]
pub struct Part<'a> {
    pub type_code: u32,
    pub payload: &'a [u8],
    ghost fact: { ∥ IsSomePayload type_code payload.now ∥₁ },
}

/// Entry words and their payloads: those of an array's items, of an object's keys or of its values,
/// or a suffix of these.
#[derive(Clone, Copy, Debug)]
pub struct Children<'a> {
    pub entries: &'a [u8],
    pub payloads: &'a [u8],
    ghost fact: { ∥ AreSomeChildren entries.now payloads.now ∥₁ },
}

/// The first child, and the children after it.
#[derive(Clone, Copy, Debug)]
pub struct Child<'a> {
    pub part: Part<'a>,
    pub later: Children<'a>,
}

/// An object: how many members it has, and the bytes after its header. Where its values begin is
/// not known yet.
#[derive(Clone, Copy, Debug)]
pub struct Object<'a> {
    pub count: usize,
    pub body: &'a [u8],
    ghost fact: { ∥ IsSomeObject count body.now ∥₁ },
}

/// The members of an object: their ascending keys, and as many values.
#[derive(Clone, Copy, Debug)]
pub struct Members<'a> {
    pub keys: Children<'a>,
    pub values: Children<'a>,
    ghost fact: { ∥ AreSomeMembers keys.entries.now keys.payloads.now
        values.entries.now values.payloads.now ∥₁ },
}

/// A key with its value, and the members after it.
#[derive(Clone, Copy, Debug)]
pub struct Member<'a> {
    pub key: &'a str,
    pub value: Part<'a>,
    pub later: Members<'a>,
}

/// The content of an array or object.
#[derive(Clone, Copy, Debug)]
pub enum Contents<'a> {
    Array(Children<'a>),
    Object(Object<'a>),
}

/// The header word of an array or object, and its children; those of an object are its keys, then
/// its values.
#[derive(Clone, Copy, Debug)]
pub struct Container<'a> {
    pub header: u32,
    pub children: Children<'a>,
}

impl<'a> Part<'a> {
    ghost use Rattle.std.specs.Prelude.{◌+◌, ◌++◌};
    ghost use Rattle.jsonb_codec.specs.Words.{extension_of, Tree, number, text, extension, word};
    ghost use Rattle.jsonb_codec.specs.Words.{PartMeans, AreContents, AreInside, ContainerParts};

    /// The text of a string.
    #[inline(always)]
    #[tactic(auto, using(crate::proofs::Decision::known_part, crate::proofs::Scalars::text_after))]
    pub fn text(self) -> &'a str
        requires { self.type_code ≡ STRING_TAG }
        ensures means { (t : Tree) → PartMeans self.entry t → t ≡ text result.now }
        ensures bytes { result.now ≡ self.entry.payload.now }
    {
        unsafe { str::from_utf8_unchecked(self.payload) }
    }

    /// The number.
    #[inline(always)]
    pub fn number(self) -> Number
        requires { self.type_code ≡ NUMBER_TAG }
        ensures { (t : Tree) → PartMeans self.entry t → t ≡ number result }
    {
        let Ok(number) = Number::decode(self.payload) else {
            unreachable!();
        };
        number
    }

    /// The extension value.
    #[inline(always)]
    #[tactic(auto, using(crate::proofs::Building::meant))]
    pub fn extension(self) -> ExtensionValue<'a>
        requires { self.type_code ≡ EXTENSION_TAG }
        ensures { (t : Tree) → PartMeans self.entry t → t ≡ extension (extension_of result) }
    {
        let Ok(value) = ExtensionValue::decode(self.payload) else {
            unreachable!();
        };
        value
    }

    /// The content of the array or object.
    #[inline(always)]
    pub fn contents(self) -> Contents<'a>
        requires { self.type_code ≡ CONTAINER_TAG }
        ensures contents { (t : Tree) → PartMeans self.entry t → AreContents result t }
        ensures inside { AreInside (length self.entry.payload.now) result }
    {
        let Some(header) = split_header(self.payload) else {
            unreachable!();
        };
        if header.tag == ARRAY_CONTAINER_TAG {
            let (entries, payloads) = header.rest.split_at(4 * header.number);
            Contents::Array(Children { entries, payloads })
        } else {
            Contents::Object(Object {
                count: header.number,
                body: header.rest,
            })
        }
    }

    /// The header word of the array or object, and all its children.
    pub fn container(self) -> Container<'a>
        requires { self.type_code ≡ CONTAINER_TAG }
        ensures opened { (t : Tree) → PartMeans self.entry t
            → ContainerParts t result.header result.children.entries.now
            result.children.payloads.now }
        ensures bytes { self.entry.payload.now ≡ word result.header
            ++ (result.children.entries.now ++ result.children.payloads.now) }
        ensures few { length result.children.entries.now < 2 ^ 32 }
        ensures len { length self.entry.payload.now
            ≡ 4 + (length result.children.entries.now + length result.children.payloads.now) }
    {
        let Some(header) = split_header(self.payload) else {
            unreachable!();
        };
        let words = entry_words(header.tag, header.number);
        let (entries, payloads) = header.rest.split_at(4 * words);
        Container {
            header: header.tag + header.number as u32,
            children: Children { entries, payloads },
        }
    }
}

// The number of entry words after a header: an object has one for each key and one for each value.
fn entry_words(tag: u32, count: usize) -> usize
    requires { count < 2 ^ 29 }
    ensures array { tag ≡ ARRAY_CONTAINER_TAG → result ≡ count }
    ensures object { tag ≡ OBJECT_CONTAINER_TAG → result ≡ 2 * count }
    ensures few { result < 2 ^ 30 }
{
    if tag == OBJECT_CONTAINER_TAG {
        2 * count
    } else {
        count
    }
}

impl<'a> Children<'a> {
    ghost use Rattle.std.specs.Prelude.{◌+◌, ◌++◌, ◌≤◌, IfSome, IfNone};
    ghost use Rattle.jsonb_value.specs.Tree.{count};
    ghost use Rattle.jsonb_codec.specs.Words.{Trees, no_trees, word, AreChildren, FirstChild};

    /// The first child, and the children after it. `None` if there is none.
    #[inline(always)]
    pub fn split_first(self) -> Option<Child<'a>>
        ensures first { IfSome result (λ c. (ts : Trees) → AreChildren ts self.entry
            → FirstChild ts c.part.type_code c.part.payload.now
            c.later.entries.now c.later.payloads.now) }
        ensures entries { IfSome result (λ c. self.entry.entries.now
            ≡ word (c.part.type_code + length c.part.payload.now) ++ c.later.entries.now) }
        ensures payloads { IfSome result (λ c. self.entry.payloads.now
            ≡ c.part.payload.now ++ c.later.payloads.now) }
        ensures entries_len { IfSome result
            (λ c. length self.entry.entries.now ≡ 4 + length c.later.entries.now) }
        ensures payloads_len { IfSome result (λ c. length self.entry.payloads.now
            ≡ length c.part.payload.now + length c.later.payloads.now) }
        ensures tag { IfSome result (λ c. c.part.type_code + 2 ^ 28 ≤ 2 ^ 32) }
        ensures short { IfSome result (λ c. length c.part.payload.now < 2 ^ 28) }
        ensures none { IfNone result ((ts : Trees) → AreChildren ts self.entry → ts ≡ no_trees) }
    {
        let Some(entry) = split_entry(self.entries) else {
            return None;
        };
        let (payload, payloads) = self.payloads.split_at(entry.number);
        Some(Child {
            part: Part {
                type_code: entry.tag,
                payload,
            },
            later: Children {
                entries: entry.rest,
                payloads,
            },
        })
    }

    /// The number of children.
    #[inline(always)]
    pub fn len(self) -> usize
        ensures count { (ts : Trees) → AreChildren ts self.entry → result ≡ count ts }
        ensures entries { length self.entry.entries.now ≡ 4 * result }
    {
        self.entries.len() / 4
    }

    /// The length of the entry words and the payloads in bytes.
    #[inline(always)]
    pub fn stored_len(self) -> usize
        ensures { result ≡ length self.entry.entries.now + length self.entry.payloads.now }
    {
        self.entries.len() + self.payloads.len()
    }
}

impl<'a> Object<'a> {
    ghost use Rattle.std.specs.Prelude.{◌+◌, ◌≤◌};
    ghost use Rattle.jsonb_codec.specs.Words.{AreMembers, IsObject};

    /// The members. The lengths of all keys are added up, so this takes a step for each member.
    #[inline(always)]
    pub fn members(self) -> Members<'a>
        ensures members { (ps : Pairs) → IsObject self.entry.count self.entry.body.now ps
            → AreMembers ps result }
        ensures inside { length result.values.entries.now + length result.values.payloads.now
            ≤ length self.entry.body.now }
    {
        let (key_entries, later) = self.body.split_at(4 * self.count);
        let (value_entries, payloads) = later.split_at(4 * self.count);
        let (keys, values) = payloads.split_at(keys_len(key_entries));
        Members {
            keys: Children {
                entries: key_entries,
                payloads: keys,
            },
            values: Children {
                entries: value_entries,
                payloads: values,
            },
        }
    }
}

impl<'a> Members<'a> {
    ghost use Rattle.std.specs.Prelude.{◌+◌, ◌≤◌, IfSome, IfNone};
    ghost use Rattle.jsonb_codec.specs.Words.{no_pairs, AreMembers, FirstMember};

    /// The first member, and the members after it. `None` if there is none.
    #[inline(always)]
    pub fn split_first(self) -> Option<Member<'a>>
        ensures first { IfSome result (λ m. (ps : Pairs) → AreMembers ps self.entry
            → FirstMember ps m.key.now m.value.type_code m.value.payload.now m.later) }
        ensures values_len { IfSome result (λ m. length self.entry.values.payloads.now
            ≡ length m.value.payload.now + length m.later.values.payloads.now) }
        ensures entries_len { IfSome result (λ m. length self.entry.values.entries.now
            ≡ 4 + length m.later.values.entries.now) }
        ensures keys_len { IfSome result (λ m. length self.entry.keys.entries.now
            ≡ 4 + length m.later.keys.entries.now) }
        ensures none { IfNone result ((ps : Pairs) → AreMembers ps self.entry → ps ≡ no_pairs) }
    {
        let Some(key) = self.keys.split_first() else {
            return None;
        };
        let Some(value) = self.values.split_first() else {
            unreachable!();
        };
        Some(Member {
            key: key.part.text(),
            value: value.part,
            later: Members {
                keys: key.later,
                values: value.later,
            },
        })
    }
}

// The total length of the keys with these entry words, in bytes.
#[inline(always)]
fn keys_len(entries: &[u8]) -> usize
    requires { length entries.now < 2 ^ 32 }
    ensures { (ps : Pairs) (p : List ℕ) → Keys ps entries.now p → result ≡ length p }
{
    let mut left = entries;
    let mut total = 0;
    while let Some(entry) = split_entry(left) {
        total += entry.number;
        left = entry.rest;
    }
    total
}
