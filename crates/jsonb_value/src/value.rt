//! The value of a document, which owns or borrows its parts.

use crate::extension::{Date, Interval, Timestamp, TimestampTz};
use crate::number::Number;
use crate::opaque::Opaque;
use std::borrow::CowStr;
use std::collections::BTreeMap;

/// How many pairs one leaf of an object's map holds.
pub const LEAF_PAIRS: usize = 15;

/// The pairs of an object, in the byte order of their keys.
pub type Object<'a> = BTreeMap<String, Value<'a>>;

/// A JSON value or extension value in memory: what a document is decoded to and encoded from. It
/// owns its arrays, its objects and their keys. Strings are owned or borrowed; binary data and
/// opaque bytes are borrowed from the input.
#[derive(Debug, Drop)]
pub enum Value<'a> {
    /// JSON's null.
    Null,
    /// A truth value.
    Bool(bool),
    /// A string of UTF-8, owned or borrowed.
    String(CowStr<'a>),
    /// An integer of 64 bits, or a decimal of 64 or 128 bits.
    Number(Number),
    /// Binary data: any bytes.
    Binary(&'a [u8]),
    /// A date.
    Date(Date),
    /// A timestamp without a time zone.
    Timestamp(Timestamp),
    /// A timestamp with the offset of its time zone.
    TimestampTz(TimestampTz),
    /// An interval of months, days and microseconds.
    Interval(Interval),
    /// An extension value of an unknown kind, carried unchanged.
    Opaque(Opaque<'a>),
    /// The items of an array, in order.
    Array(Vec<Value<'a>>),
    /// The pairs of an object, in the byte order of their keys.
    Object(BTreeMap<String, Value<'a>>),
}
