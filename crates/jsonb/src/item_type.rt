//! Kinds of values.

ghost use Rattle.std.specs.Prelude.{◌≡◌, IfOk};
ghost use Rattle.jsonb.specs.Words.{kind, kind_of_type, kind_rank, rank_order};

use jsonb_codec::constants::{
    ARRAY_CONTAINER_TAG, EXTENSION_TAG, FALSE_TAG, NULL_TAG, NUMBER_TAG, OBJECT_CONTAINER_TAG,
    STRING_TAG, TRUE_TAG,
};
use jsonb_codec::{read_header, read_jentry};
use jsonb_value::Error;
use std::cmp::Ordering;

/// The kind of a value; for an array with the number of its items, for an object with the number of
/// its pairs. `==` compares kind and count.
#[derive(Clone, Copy, Debug, PartialEq, Eq)]
pub enum JsonbItemType {
    Null,
    Boolean,
    Number,
    String,
    Extension,
    Array(usize),
    Object(usize),
}

impl JsonbItemType {
    /// The order of two values, as far as their kinds determine it. Kinds in ascending order are
    /// extension value, truth value, number, string, object, array and null. Null and null are
    /// `Equal`; two values of any other single kind give `None`, whatever their counts.
    pub fn rank_cmp(&self, other: &Self) -> Option<Ordering>
        ensures { result ≡ rank_order self.now other.now }
    {
        if let (JsonbItemType::Null, JsonbItemType::Null) = (self, other) {
            return Some(Ordering::Equal);
        }
        match self.rank().cmp(&other.rank()) {
            Ordering::Equal => None,
            unequal => Some(unequal),
        }
    }

    // The rank of the kind in ascending order, from 0.
    fn rank(&self) -> u8
        ensures { result ≡ kind_rank self.now }
    {
        match self {
            JsonbItemType::Extension => 0,
            JsonbItemType::Boolean => 1,
            JsonbItemType::Number => 2,
            JsonbItemType::String => 3,
            JsonbItemType::Object(_) => 4,
            JsonbItemType::Array(_) => 5,
            JsonbItemType::Null => 6,
        }
    }

    // The kind of a scalar whose entry has this type. `InvalidJsonb` for a container and for an
    // unknown type.
    fn of_entry(type_code: u32) -> Result<JsonbItemType, Error>
        ensures { result ≡ kind_of_type type_code }
    {
        match type_code {
            NULL_TAG | FALSE_TAG | TRUE_TAG | NUMBER_TAG | STRING_TAG | EXTENSION_TAG => {
                Ok(JsonbItemType::of_scalar(type_code))
            }
            _ => Err(Error::InvalidJsonb),
        }
    }

    // The kind of a scalar whose entry is known to have the type of one.
    pub(crate) fn of_scalar(type_code: u32) -> JsonbItemType
        ensures { IfOk (kind_of_type type_code) (λ kind. result ≡ kind) }
    {
        match type_code {
            NULL_TAG => JsonbItemType::Null,
            FALSE_TAG | TRUE_TAG => JsonbItemType::Boolean,
            NUMBER_TAG => JsonbItemType::Number,
            STRING_TAG => JsonbItemType::String,
            _ => JsonbItemType::Extension,
        }
    }
}

/// The kind, read from the first two words. `InvalidEOF` if a word is cut off, `InvalidJsonb` for a
/// header or an entry of an unknown kind, and for a container's entry under a scalar's header.
#[tactic(auto, unfolding(crate::specs::Kind::kind))]
pub fn kind_of(bytes: &[u8]) -> Result<JsonbItemType, Error>
    ensures { result ≡ kind bytes.now }
{
    let (tag, count) = read_header(bytes, 0)?;
    match tag {
        ARRAY_CONTAINER_TAG => Ok(JsonbItemType::Array(count)),
        OBJECT_CONTAINER_TAG => Ok(JsonbItemType::Object(count)),
        _ => JsonbItemType::of_entry(read_jentry(bytes, 4)?.type_code),
    }
}
