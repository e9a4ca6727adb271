//! Values that come one by one, for an array.

ghost use Rattle.std.specs.Prelude.{◌≡◌, ◌↔◌, ◌++◌, ◌∷◌, ◌<◌, [], List, IsTrue, IfOk};
ghost use Rattle.jsonb.specs.Gathering.{IsGathered};
ghost use Rattle.jsonb.specs.Storage.{IsStorable};
ghost use Rattle.jsonb.specs.Words.{FitArray, HasSameEntry, IsArrayOf, ItemView, MadeIfFit};
ghost use Rattle.jsonb.specs.Words.{owned_bytes};

use super::write::array_document;
use crate::owned::OwnedJsonb;
use jsonb_codec::constants::{CONTAINER_HEADER_LEN_MASK, JENTRY_OFF_LEN_MASK};
use jsonb_codec::writer::{Leaf, Stored};
use jsonb_value::Error;
use std::alloc::Global;

/// The values that came. They are counted until one makes the array impossible, and kept as long as
/// memory is there for each: so what cannot be built is known as such even if memory was refused.
#[derive(Drop)]
pub struct Gathered<T> {
    values: Vec<T>,
    count: usize,
    fit: bool,
    complete: bool,
}

impl<T: Stored + Drop> Gathered<T> {
    /// No values. It allocates nothing.
    pub fn new(alloc: Global) -> Self
        ensures { IsGathered T.stored T.code result [] }
    {
        Gathered {
            values: Vec::new(alloc),
            count: 0,
            fit: true,
            complete: true,
        }
    }

    /// Takes one more value.
    pub fn push(&mut self, value: T)
        ensures { (xs : List ItemView) (x : ItemView) → HasSameEntry T.stored T.code value x
            → IsGathered T.stored T.code self.old xs
            → IsGathered T.stored T.code self.new (xs ++ x ∷ []) }
    {
        if self.fit && self.has_room() && can_be_stored(&value) {
            self.count += 1;
            if self.complete {
                self.complete = self.values.push(value).is_ok();
            }
        } else {
            self.fit = false;
        }
    }

    // Whether an array can hold one more value.
    fn has_room(&self) -> bool
        ensures { IsTrue result ↔ (self.now.count < 536870911) }
    {
        self.count < CONTAINER_HEADER_LEN_MASK as usize
    }

    /// The array of the values' entries. `InvalidJsonb` if a value has no entry, or a payload or
    /// the count exceeds its limit, also where memory was refused for a value; otherwise
    /// `OutOfMemory` if it was, or if that for the array is.
    pub fn build(self) -> Result<OwnedJsonb, Error>
        ensures ok { IfOk result (λ owned. (xs : List ItemView)
            → IsGathered T.stored T.code self xs → IsArrayOf xs (owned_bytes owned)) }
        ensures limits { (xs : List ItemView) → IsGathered T.stored T.code self xs
            → MadeIfFit (FitArray xs) result }
    {
        if !self.fit {
            return Err(Error::InvalidJsonb);
        }
        if !self.complete {
            return Err(Error::OutOfMemory);
        }
        array_document(*self.values.allocator(), &self.values)
    }
}

// Whether the value has an entry, whose payload does not exceed its limit.
fn can_be_stored<T: Stored>(value: &T) -> bool
    ensures { (x : ItemView) → HasSameEntry T.stored T.code value.now x
        → (IsTrue result ↔ IsStorable x) }
{
    value.is_stored() && value.code().len() <= JENTRY_OFF_LEN_MASK as usize
}
