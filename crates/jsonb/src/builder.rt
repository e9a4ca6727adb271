//! Building arrays and objects from items.

mod distinct;
mod gathered;
mod write;

ghost use Rattle.std.specs.Prelude.{◌≡◌, ◌↔◌, ◌⊎◌, List, [], ◌∷◌, ◌++◌, ℕ, map, Err, IsTrue, IfOk};
ghost use Rattle.std.specs.Prelude.{IfErr, OnOk, OnErr};
ghost use Rattle.jsonb.specs.ItemView as items;
ghost use Rattle.jsonb.specs.Words.{Trees, Pairs, raw_bytes, owned_bytes, ItemView, item_view};
ghost use Rattle.jsonb.specs.Words.{IsFinite, FitArray, IsArrayOf, has_key, with_pair, FitObject};
ghost use Rattle.jsonb.specs.Words.{IsObjectOf, AreKeys, keys_of, pairs_by, AllMean, AllMeanAt};
ghost use Rattle.jsonb.specs.Words.{IsArrayUpToZeros, IsObjectUpToZeros, IsArrayOfInputs, TakesAll};
ghost use Rattle.jsonb.specs.Words.{IsObjectOfInputs, MakeNoObject, input_pair, TakesUpTo};
ghost use Rattle.jsonb.specs.Words.{IsArrayOfDocuments, IsObjectOfDocuments, AreWithinLimits};
ghost use Rattle.jsonb.specs.Words.{PairsExceedLimits, document_pair, document_bytes, MadeIfFit};
ghost use Rattle.jsonb.specs.Words.{AreDistinctWith, PairsAreWithinLimits, in_order, raw_pairs};

use crate::code::document_part;
use crate::document::Document;
use crate::item::JsonbItem;
use crate::owned::OwnedJsonb;
use crate::raw::RawJsonb;
pub use distinct::ArrayDistinctBuilder;
use gathered::Gathered;
use jsonb_value::Error;
use std::alloc::Global;
use std::collections::BTreeMap;
use std::marker::Model;
use write::{array_document, object_document};

/// Collects items and builds an array from them.
#[derive(Drop)]
pub struct ArrayBuilder<'a> {
    items: Vec<JsonbItem<'a>>,
}

impl<'a> Model for ArrayBuilder<'a> {
    ghost Value = { List ItemView };

    ghost view = { λ s. map item_view s.items.items };
}

impl<'a> ArrayBuilder<'a> {
    /// A builder without items. It allocates nothing.
    pub fn new(alloc: Global) -> Self
        ensures { result ≡ [] }
    {
        ArrayBuilder {
            items: Vec::new(alloc),
        }
    }

    /// A builder without items, with room for `capacity` of them. `OutOfMemory` is the only error.
    pub fn with_capacity(alloc: Global, capacity: usize) -> Result<Self, Error>
        ensures ok { IfOk result (λ builder. builder ≡ []) }
        ensures memory { IfErr result (λ e. e ≡ Error.OutOfMemory) }
    {
        Ok(ArrayBuilder {
            items: Vec::with_capacity(alloc, capacity)?,
        })
    }

    /// Appends an item. `OutOfMemory` is the only error; the builder is then unchanged, and the
    /// item is dropped.
    pub fn push_jsonb_item(&mut self, item: JsonbItem<'a>) -> Result<(), Error>
        ensures pushed { OnOk result (self.new ≡ self.old ++ item_view item.entry ∷ []) }
        ensures err { OnErr result (self.new ≡ self.old) }
        ensures memory { IfErr result (λ e. e ≡ Error.OutOfMemory) }
    {
        self.items.push(item)?;
        Ok(())
    }

    /// Appends a document by its bytes, as `push_jsonb_item` appends `JsonbItem::Raw`. The bytes
    /// are checked by `build`. `OutOfMemory` is the only error; the builder is then unchanged.
    pub fn push_raw_jsonb(&mut self, raw: RawJsonb<'a>) -> Result<(), Error>
        ensures pushed { OnOk result (self.new ≡ self.old ++ items.raw (raw_bytes raw.entry) ∷ []) }
        ensures err { OnErr result (self.new ≡ self.old) }
        ensures memory { IfErr result (λ e. e ≡ Error.OutOfMemory) }
    {
        self.push_jsonb_item(JsonbItem::Raw(raw))
    }

    /// Appends a document by its bytes, as `push_jsonb_item` appends `JsonbItem::Owned`. The bytes
    /// are checked by `build`. `OutOfMemory` is the only error; the builder is then unchanged, and
    /// the bytes are dropped.
    pub fn push_owned_jsonb(&mut self, owned: OwnedJsonb) -> Result<(), Error>
        ensures pushed { OnOk result (self.new ≡ self.old ++ items.owned (owned_bytes owned) ∷ []) }
        ensures err { OnErr result (self.new ≡ self.old) }
        ensures memory { IfErr result (λ e. e ≡ Error.OutOfMemory) }
    {
        self.push_jsonb_item(JsonbItem::Owned(owned))
    }

    /// The array of the items, in the order of their insertion. A scalar is stored as its entry and
    /// payload, even if it was given as a document; an array or object is stored whole.
    /// `InvalidJsonb`, before any allocation, if given bytes are not a document, a payload exceeds
    /// 268,435,455 bytes, or there are more than 536,870,911 items; `OutOfMemory` if an allocation
    /// fails.
    pub fn build(self) -> Result<OwnedJsonb, Error>
        ensures ok { IfOk result (λ owned. IsArrayOf self.entry (owned_bytes owned)) }
        ensures means { IfOk result (λ owned. (ts : Trees) → AllMean self.entry ts
            → IsArrayUpToZeros ts (owned_bytes owned)) }
        ensures limits { MadeIfFit (FitArray self.entry) result }
    {
        array_document(*self.items.allocator(), &self.items)
    }
}

/// Collects pairs of keys and items and builds an object from them.
#[derive(Drop)]
pub struct ObjectBuilder<'a> {
    pairs: BTreeMap<&'a str, JsonbItem<'a>>,
    alloc: Global,
}

impl<'a> Model for ObjectBuilder<'a> {
    ghost Value = { List (List ℕ × ItemView) };

    ghost view = { λ s. pairs_by item_view s.pairs.entries };
}

impl<'a> ObjectBuilder<'a> {
    /// A builder without pairs. It allocates nothing.
    pub fn new(alloc: Global) -> Self
        ensures { result ≡ [] }
    {
        ObjectBuilder {
            pairs: BTreeMap::new(alloc),
            alloc,
        }
    }

    /// Whether the builder has a pair with this key.
    pub fn contains_key(&self, key: &str) -> bool
        ensures { result ≡ has_key self.now key.now }
    {
        self.pairs.contains_key(key)
    }

    /// Inserts a pair; pairs are ordered by the bytes of their keys. `ObjectDuplicateKey` if the
    /// key is present, `OutOfMemory` if an allocation fails. After an error the builder is
    /// unchanged, and the item is dropped.
    pub fn push_jsonb_item(&mut self, key: &'a str, item: JsonbItem<'a>) -> Result<(), Error>
        ensures pushed { OnOk result
            (self.new ≡ with_pair self.old key.entry.now (item_view item.entry)) }
        ensures duplicate { (result ≡ Err Error.ObjectDuplicateKey)
            ↔ IsTrue (has_key self.old key.entry.now) }
        ensures err { OnErr result (self.new ≡ self.old) }
        ensures only { IfErr result
            (λ e. (e ≡ Error.ObjectDuplicateKey) ⊎ (e ≡ Error.OutOfMemory)) }
    {
        if self.contains_key(key) {
            return Err(Error::ObjectDuplicateKey);
        }
        self.pairs.insert(key, item)?;
        Ok(())
    }

    /// Inserts a document by its bytes, as `push_jsonb_item` inserts `JsonbItem::Raw`. The bytes
    /// are checked by `build`. `ObjectDuplicateKey` if the key is present, `OutOfMemory` if an
    /// allocation fails; after an error the builder is unchanged.
    pub fn push_raw_jsonb(&mut self, key: &'a str, raw: RawJsonb<'a>) -> Result<(), Error>
        ensures pushed { OnOk result
            (self.new ≡ with_pair self.old key.entry.now (items.raw (raw_bytes raw.entry))) }
        ensures duplicate { (result ≡ Err Error.ObjectDuplicateKey)
            ↔ IsTrue (has_key self.old key.entry.now) }
        ensures err { OnErr result (self.new ≡ self.old) }
        ensures only { IfErr result
            (λ e. (e ≡ Error.ObjectDuplicateKey) ⊎ (e ≡ Error.OutOfMemory)) }
    {
        self.push_jsonb_item(key, JsonbItem::Raw(raw))
    }

    /// Inserts a document by its bytes, as `push_jsonb_item` inserts `JsonbItem::Owned`. The bytes
    /// are checked by `build`. `ObjectDuplicateKey` if the key is present, `OutOfMemory` if an
    /// allocation fails; after an error the builder is unchanged, and the bytes are dropped.
    pub fn push_owned_jsonb(&mut self, key: &'a str, owned: OwnedJsonb) -> Result<(), Error>
        ensures pushed { OnOk result
            (self.new ≡ with_pair self.old key.entry.now (items.owned (owned_bytes owned))) }
        ensures duplicate { (result ≡ Err Error.ObjectDuplicateKey)
            ↔ IsTrue (has_key self.old key.entry.now) }
        ensures err { OnErr result (self.new ≡ self.old) }
        ensures only { IfErr result
            (λ e. (e ≡ Error.ObjectDuplicateKey) ⊎ (e ≡ Error.OutOfMemory)) }
    {
        self.push_jsonb_item(key, JsonbItem::Owned(owned))
    }

    /// The object of the pairs, in ascending byte order of their keys. A scalar is stored as its
    /// entry and payload, even if it was given as a document; an array or object is stored whole.
    /// `InvalidJsonb`, before any allocation, if given bytes are not a document, a key or a payload
    /// exceeds 268,435,455 bytes, or there are more than 536,870,911 pairs; `OutOfMemory` if an
    /// allocation fails.
    pub fn build(self) -> Result<OwnedJsonb, Error>
        ensures ok { IfOk result (λ owned. IsObjectOf self.entry (owned_bytes owned)) }
        ensures keys { OnOk result (AreKeys (keys_of self.entry)) }
        ensures means { IfOk result (λ owned. (ps : Pairs) → AllMeanAt self.entry ps
            → IsObjectUpToZeros ps (owned_bytes owned)) }
        ensures limits { MadeIfFit (FitObject self.entry) result }
    {
        object_document(self.alloc, &self.pairs)
    }
}

impl OwnedJsonb {
    /// The array of these documents, in the order of the iterator, which must end. A scalar is
    /// stored as its entry and payload, an array or object whole. `InvalidJsonb` if an input is not
    /// a document, a payload exceeds 268,435,455 bytes, or there are more than 536,870,911 inputs,
    /// also where memory was refused before; otherwise `OutOfMemory` if an allocation fails.
    pub fn build_array<'a, I: IntoIterator<Item = RawJsonb<'a>>>(
        alloc: Global,
        inputs: I,
    ) -> Result<OwnedJsonb, Error>
    where
        I::IntoIter: Drop,
        requires { (it : I.IntoIter) → I.into_iter_gives inputs it
            → I.IntoIter.can_next it × IsFinite (I.IntoIter.remaining it) }
        ensures ok { IfOk result (λ owned. TakesAll I.into_iter_gives I.IntoIter.next_gives inputs
            (λ xs. IsArrayOfInputs (map raw_bytes xs) (owned_bytes owned))) }
        ensures past { result ≡ Err Error.InvalidJsonb
            → TakesAll I.into_iter_gives I.IntoIter.next_gives inputs
            (λ xs. FitArray (map (λ x. items.raw (raw_bytes x)) xs) → ⊥) }
        ensures limits { TakesAll I.into_iter_gives I.IntoIter.next_gives inputs
            (λ xs. MadeIfFit (FitArray (map (λ x. items.raw (raw_bytes x)) xs)) result) }
        ensures only { IfErr result (λ e. (e ≡ Error.InvalidJsonb) ⊎ (e ≡ Error.OutOfMemory)) }
    {
        let mut documents = Gathered::new(alloc);
        for input in inputs {
            documents.push(document_part(input));
        }
        documents.build()
    }

    /// The object of these documents at their keys, in ascending byte order of the keys. The
    /// iterator must end. A scalar is stored as its entry and payload, an array or object whole.
    /// `ObjectDuplicateKey` at the first key that occurred before; otherwise `InvalidJsonb` if an
    /// input is not a document, a key or a payload exceeds 268,435,455 bytes, or there are more
    /// than 536,870,911 inputs; `OutOfMemory` if an allocation fails. A repeated key is found by
    /// keeping all keys, so where memory for one is refused, no later input is looked at.
    pub fn build_object<'a, I: IntoIterator<Item = (&'a str, RawJsonb<'a>)>>(
        alloc: Global,
        inputs: I,
    ) -> Result<OwnedJsonb, Error>
    where
        I::IntoIter: Drop,
        requires { (it : I.IntoIter) → I.into_iter_gives inputs it
            → I.IntoIter.can_next it × IsFinite (I.IntoIter.remaining it) }
        ensures ok { IfOk result (λ owned. TakesAll I.into_iter_gives I.IntoIter.next_gives inputs
            (λ xs. IsObjectOfInputs (map input_pair xs) (owned_bytes owned))) }
        ensures past { result ≡ Err Error.InvalidJsonb
            → TakesAll I.into_iter_gives I.IntoIter.next_gives inputs
            (λ xs. MakeNoObject (map input_pair xs)) }
        ensures duplicate { result ≡ Err Error.ObjectDuplicateKey
            → TakesUpTo I.into_iter_gives I.IntoIter.next_gives inputs
            (λ xs x. IsTrue (has_key (map input_pair xs) x.0.now)) }

        // An object can be built, or no key up to the one at which memory was refused is repeated.
        ensures memory { result ≡ Err Error.OutOfMemory
            → TakesAll I.into_iter_gives I.IntoIter.next_gives inputs
            (λ xs. FitObject (raw_pairs (in_order (map input_pair xs))))
            ⊎ TakesUpTo I.into_iter_gives I.IntoIter.next_gives inputs
            (λ xs x. AreDistinctWith (map input_pair xs) (input_pair x)) }
        ensures only { IfErr result (λ e. (e ≡ Error.InvalidJsonb)
            ⊎ ((e ≡ Error.ObjectDuplicateKey) ⊎ (e ≡ Error.OutOfMemory))) }
    {
        let mut pairs = BTreeMap::new(alloc);
        for (key, input) in inputs {
            if pairs.contains_key(key) {
                return Err(Error::ObjectDuplicateKey);
            }
            pairs.insert(key, document_part(input))?;
        }
        object_document(alloc, &pairs)
    }

    /// The array of these checked documents, like `build_array` of their bytes, but none is checked
    /// again. The iterator must end. `InvalidJsonb` if a payload exceeds 268,435,455 bytes, or
    /// there are more than 536,870,911 documents, also where memory was refused before; otherwise
    /// `OutOfMemory` if an allocation fails.
    pub fn build_array_of_documents<'a, I: IntoIterator<Item = Document<'a>>>(
        alloc: Global,
        inputs: I,
    ) -> Result<OwnedJsonb, Error>
    where
        I::IntoIter: Drop,
        requires { (it : I.IntoIter) → I.into_iter_gives inputs it
            → I.IntoIter.can_next it × IsFinite (I.IntoIter.remaining it) }
        ensures ok { IfOk result (λ owned. TakesAll I.into_iter_gives I.IntoIter.next_gives inputs
            (λ ds. IsArrayOfDocuments (map document_bytes ds) (owned_bytes owned))) }
        ensures past { result ≡ Err Error.InvalidJsonb
            → TakesAll I.into_iter_gives I.IntoIter.next_gives inputs
            (λ ds. AreWithinLimits (map document_bytes ds) → ⊥) }
        ensures limits { TakesAll I.into_iter_gives I.IntoIter.next_gives inputs
            (λ ds. MadeIfFit (AreWithinLimits (map document_bytes ds)) result) }
        ensures only { IfErr result (λ e. (e ≡ Error.InvalidJsonb) ⊎ (e ≡ Error.OutOfMemory)) }
    {
        let mut documents = Gathered::new(alloc);
        for document in inputs {
            documents.push(document);
        }
        documents.build()
    }

    /// The object of these checked documents at their keys, like `build_object` of their bytes, but
    /// none is checked again. The iterator must end. `ObjectDuplicateKey` at the first key that
    /// occurred before; otherwise `InvalidJsonb` if a key or a payload exceeds 268,435,455 bytes,
    /// or there are more than 536,870,911 documents; `OutOfMemory` if an allocation fails.
    pub fn build_object_of_documents<'a, I: IntoIterator<Item = (&'a str, Document<'a>)>>(
        alloc: Global,
        inputs: I,
    ) -> Result<OwnedJsonb, Error>
    where
        I::IntoIter: Drop,
        requires { (it : I.IntoIter) → I.into_iter_gives inputs it
            → I.IntoIter.can_next it × IsFinite (I.IntoIter.remaining it) }
        ensures ok { IfOk result (λ owned. TakesAll I.into_iter_gives I.IntoIter.next_gives inputs
            (λ xs. IsObjectOfDocuments (map document_pair xs) (owned_bytes owned))) }
        ensures past { result ≡ Err Error.InvalidJsonb
            → TakesAll I.into_iter_gives I.IntoIter.next_gives inputs
            (λ xs. PairsExceedLimits (map document_pair xs)) }
        ensures duplicate { result ≡ Err Error.ObjectDuplicateKey
            → TakesUpTo I.into_iter_gives I.IntoIter.next_gives inputs
            (λ xs x. IsTrue (has_key (map document_pair xs) x.0.now)) }

        // An object can be built, or no key up to the one at which memory was refused is repeated.
        ensures memory { result ≡ Err Error.OutOfMemory
            → TakesAll I.into_iter_gives I.IntoIter.next_gives inputs
            (λ xs. PairsAreWithinLimits (in_order (map document_pair xs)))
            ⊎ TakesUpTo I.into_iter_gives I.IntoIter.next_gives inputs
            (λ xs x. AreDistinctWith (map document_pair xs) (document_pair x)) }
        ensures only { IfErr result (λ e. (e ≡ Error.InvalidJsonb)
            ⊎ ((e ≡ Error.ObjectDuplicateKey) ⊎ (e ≡ Error.OutOfMemory))) }
    {
        let mut members = BTreeMap::new(alloc);
        for (key, document) in inputs {
            if members.contains_key(key) {
                return Err(Error::ObjectDuplicateKey);
            }
            members.insert(key, document)?;
        }
        object_document(alloc, &members)
    }
}
