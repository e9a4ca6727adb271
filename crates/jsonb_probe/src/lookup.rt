//! Looking up a key, with the number of words read.

use crate::items::item_text;
use crate::line::{decode_hex, key_of};
use crate::refusal::Refusal;
use jsonb::{RawJsonb, Reads};
use std::alloc::Global;

/// Which keys match the wanted one.
#[derive(Clone, Copy)]
pub enum Keys {
    /// The keys with the same bytes.
    Exact,
    /// The keys that are equal up to the case of ASCII letters.
    AnyCase,
}

impl Keys {
    fn is_wanted(self, wanted: &[u8], key: &[u8]) -> bool {
        match self {
            Keys::Exact => wanted == key,
            Keys::AnyCase => wanted.eq_ignore_ascii_case(key),
        }
    }
}

/// Replies with the number of words read, and the value that was found.
pub fn lookup(alloc: Global, keys: Keys, document: &[u8], key: &[u8]) -> Result<String, Refusal> {
    let bytes = decode_hex(alloc, document)?;
    let key = decode_hex(alloc, key)?;
    let mut reads = Reads::new();
    let found = RawJsonb::new(&bytes).get_object_value_by_key_name_counted(
        key_of(&key)?,
        |wanted, key| keys.is_wanted(wanted, key),
        &mut reads,
    );
    let count = reads.count();
    match found {
        Ok(Some(item)) => {
            let text = item_text(alloc, item)?;
            Ok(format!(in alloc; "reads {count} {text}")?)
        }
        Ok(None) => Ok(format!(in alloc; "reads {count} none")?),
        Err(error) => Ok(format!(in alloc; "reads {count} error {}", error.name())?),
    }
}
