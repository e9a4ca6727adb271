//! The members of an object while it is being read.

ghost use Rattle.std.specs.Prelude.{◌≡◌, ◌++◌, [], string_cmp, IfOk, IfErr, OnOk};
ghost use Rattle.jsonb_value.specs.Words.{insert_entry, IsFromIterResult, members_held, pairs_view};

use crate::error::Error;
use crate::value::{LEAF_PAIRS, Object, Value};
use std::alloc::Global;
use std::collections::BTreeMap;
use std::mem::replace;

/// The members read so far. The first are in a map, as long as they fit one leaf; later ones are in
/// a list in the order read, because building a map from a list costs less than single insertions.
#[derive(Drop)]
pub struct Members<'a> {
    few: Object<'a>,
    others: Vec<(String, Value<'a>)>,
    /// The key whose value is read next.
    pub key: String,
}

impl<'a> Members<'a> {
    /// No members.
    pub fn new(alloc: Global) -> Members<'a>
        ensures { members_held result ≡ [] }
    {
        Members {
            few: BTreeMap::new(alloc),
            others: Vec::new(alloc),
            key: String::new(alloc),
        }
    }

    /// Inserts the value of the key that was read last. Of equal keys the last value is kept.
    pub fn insert(&mut self, alloc: Global, value: Value<'a>) -> Result<(), Error>
        ensures ok { OnOk result (members_held self.new
            ≡ insert_entry string_cmp (members_held self.old) self.old.key value.entry) }
        ensures memory { IfErr result (λ e. e ≡ Error.OutOfMemory) }
    {
        let key = replace(&mut self.key, String::new(alloc));
        if self.others.is_empty() && self.few.len() < LEAF_PAIRS {
            drop(self.few.insert(key, value)?);
        } else {
            self.others.push((key, value))?;
        }
        Ok(())
    }

    /// The object of all members.
    pub fn into_object(self, alloc: Global) -> Result<Object<'a>, Error>
        ensures ok { IfOk result
            (λ object. pairs_view object.entries ≡ pairs_view (members_held self.entry)) }
        ensures memory { IfErr result (λ e. e ≡ Error.OutOfMemory) }
    {
        let Members { few, others, .. } = self;
        if others.is_empty() {
            return Ok(few);
        }
        object_of(alloc, join(alloc, few, others)?)
    }
}

// The members of a map, followed by others.
fn join<'a>(
    alloc: Global,
    few: Object<'a>,
    others: Vec<(String, Value<'a>)>,
) -> Result<Vec<(String, Value<'a>)>, Error>
    ensures ok { IfOk result (λ all. all.items ≡ few.entry.entries ++ others.entry.items) }
    ensures memory { IfErr result (λ e. e ≡ Error.OutOfMemory) }
{
    let mut others = others;
    let mut all: Vec<(String, Value<'a>)> = few.into_iter().collect(alloc)?;
    all.append(&mut others)?;
    Ok(all)
}

// Builds a map of these pairs. Of equal keys the last value is kept.
fn object_of<'a>(alloc: Global, pairs: Vec<(String, Value<'a>)>) -> Result<Object<'a>, Error>
    ensures ok { IfOk result (IsFromIterResult string_cmp pairs.entry.items) }
    ensures memory { IfErr result (λ e. e ≡ Error.OutOfMemory) }
{
    Ok(pairs.into_iter().collect(alloc)?)
}
