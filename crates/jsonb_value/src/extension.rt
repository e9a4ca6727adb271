//! Values that JSON has no syntax for, and their payloads.

ghost use Rattle.std.specs.Prelude.{◌≡◌, ◌≤◌, ◌<◌, ◌^◌, ◌∷◌, ◌++◌, ◌⊎◌, Err, IfSome, IfNone, IfOk};
ghost use Rattle.std.specs.Prelude.{IfErr, OnOk, OnErr, length, IsOk, vec_len, vec_capacity};
ghost use Rattle.std.specs.Prelude.{◌+◌, IsOkAnd};
ghost use Rattle.jsonb_value.specs.Words.{w32, w64, Appends, IsSigned, Extension, date, timestamp};
ghost use Rattle.jsonb_value.specs.Words.{timestamp_tz, interval, ExtCode, IsZoned, IsOldZoned};
ghost use Rattle.jsonb_value.specs.Words.{IsInterval, extension_of, extension_payload, HasKnownTag};

use crate::constants::{
    EXTENSION_BINARY, EXTENSION_DATE, EXTENSION_INTERVAL, EXTENSION_TIMESTAMP,
    EXTENSION_TIMESTAMP_TZ,
};
use crate::error::Error;
use crate::opaque::Opaque;
use crate::payload::{append, append_opaque};
use byteorder::{BigEndian, ByteOrder};

// An entry holds a payload length below 2^28: a tag and at most this many bytes.
const MAX_DATA: usize = 0x0FFFFFFE;

/// A date, as the number stored for it. The format does not define what the number counts.
#[derive(Clone, Copy, Debug, PartialEq, Eq)]
pub struct Date {
    pub value: i32,
}

/// A timestamp, as the number stored for it. The format defines neither its unit nor its epoch.
#[derive(Clone, Copy, Debug, PartialEq, Eq)]
pub struct Timestamp {
    pub value: i64,
}

/// A timestamp, as in `Timestamp`, with the offset of its time zone in seconds.
#[derive(Clone, Copy, Debug, PartialEq, Eq)]
pub struct TimestampTz {
    pub offset: i32,
    pub value: i64,
}

/// An interval of months, days and microseconds, each stored as a separate number.
#[derive(Clone, Copy, Debug, PartialEq, Eq)]
pub struct Interval {
    pub months: i32,
    pub days: i32,
    pub micros: i64,
}

/// An extension value. `==` compares by structure.
#[derive(Clone, Copy, Debug, PartialEq, Eq)]
pub enum ExtensionValue<'a> {
    Binary(&'a [u8]),
    Date(Date),
    Timestamp(Timestamp),
    TimestampTz(TimestampTz),
    Interval(Interval),
    Opaque(Opaque<'a>),
}

impl<'a> ExtensionValue<'a> {
    /// Decodes a payload. `InvalidJsonbNumber` if the first byte is a known tag and the length is
    /// wrong for it, `InvalidJsonbExtension` if the payload is empty or its first byte is not a
    /// known tag.
    pub fn decode(bytes: &'a [u8]) -> Result<ExtensionValue<'a>, Error>
        ensures ok { IfOk result (λ x. ExtCode bytes.now (extension_of x)) }
        ensures only { (e : Extension) → ExtCode bytes.now e
            → IsOkAnd result (λ x. extension_of x ≡ e) }
        ensures none { OnErr result ((e : Extension) → ExtCode bytes.now e → ⊥) }
        ensures length { result ≡ Err Error.InvalidJsonbNumber → HasKnownTag bytes.now }
        ensures tag { result ≡ Err Error.InvalidJsonbExtension → HasKnownTag bytes.now → ⊥ }
        ensures err { IfErr result
            (λ e. (e ≡ Error.InvalidJsonbNumber) ⊎ (e ≡ Error.InvalidJsonbExtension)) }
    {
        match bytes {
            [tag, rest @ ..] => extension_of_tag(*tag, rest),
            [] => Err(Error::InvalidJsonbExtension),
        }
    }

    /// Appends the payload and returns its length in bytes. `InvalidJsonb` if binary or opaque data
    /// exceed 0x0FFFFFFE bytes, the most that an entry can hold; `OutOfMemory` if the buffer cannot
    /// grow. After an error the bytes of `buf` are unchanged.
    pub fn compact_encode(&self, buf: &mut Vec<u8>) -> Result<usize, Error>
        ensures len { IfOk result (λ n. n ≡ length (extension_payload (extension_of self.now))) }
        ensures appended { OnOk result
            (buf.new.items ≡ buf.old.items ++ extension_payload (extension_of self.now)) }
        ensures fits { OnOk result (length (extension_payload (extension_of self.now)) < 2 ^ 28) }
        ensures err { OnErr result (buf.new.items ≡ buf.old.items) }
        ensures past { result ≡ Err Error.InvalidJsonb
            → 2 ^ 28 ≤ length (extension_payload (extension_of self.now)) }
        ensures memory { result ≡ Err Error.OutOfMemory
            → length (extension_payload (extension_of self.now)) < 2 ^ 28 }
        ensures only { IfErr result (λ e. (e ≡ Error.InvalidJsonb) ⊎ (e ≡ Error.OutOfMemory)) }
        ensures capacity { vec_capacity buf.old ≤ vec_capacity buf.new }
        ensures room { length (extension_payload (extension_of self.now)) < 2 ^ 28
            → vec_len buf.old + length (extension_payload (extension_of self.now))
            ≤ vec_capacity buf.old
            → IsOk result }
    {
        match self {
            ExtensionValue::Binary(bytes) => append_data(buf, EXTENSION_BINARY, bytes),
            ExtensionValue::Date(date) => append_date(buf, date),
            ExtensionValue::Timestamp(timestamp) => append_timestamp(buf, timestamp),
            ExtensionValue::TimestampTz(zoned) => append_timestamp_tz(buf, zoned),
            ExtensionValue::Interval(interval) => append_interval(buf, interval),
            ExtensionValue::Opaque(opaque) => append_data(buf, opaque.tag(), opaque.bytes()),
        }
    }

    /// The length in bytes of the payload that `compact_encode` appends.
    pub fn compact_len(&self) -> usize
        ensures { result ≡ length (extension_payload (extension_of self.now)) }
    {
        match self {
            ExtensionValue::Binary(bytes) => 1 + bytes.len(),
            ExtensionValue::Date(_) => 5,
            ExtensionValue::Timestamp(_) => 9,
            ExtensionValue::TimestampTz(_) => 13,
            ExtensionValue::Interval(_) => 17,
            ExtensionValue::Opaque(opaque) => 1 + opaque.bytes().len(),
        }
    }
}

// Decodes `rest` as the payload of the tag.
fn extension_of_tag<'a>(tag: u8, rest: &'a [u8]) -> Result<ExtensionValue<'a>, Error>
    ensures ok { IfOk result (λ x. ExtCode (tag ∷ rest.now) (extension_of x)) }
    ensures none { OnErr result ((e : Extension) → ExtCode (tag ∷ rest.now) e → ⊥) }
    ensures length { result ≡ Err Error.InvalidJsonbNumber → HasKnownTag (tag ∷ rest.now) }
    ensures tag { result ≡ Err Error.InvalidJsonbExtension → HasKnownTag (tag ∷ rest.now) → ⊥ }
    ensures err { IfErr result
        (λ e. (e ≡ Error.InvalidJsonbNumber) ⊎ (e ≡ Error.InvalidJsonbExtension)) }
{
    match tag {
        EXTENSION_BINARY => Ok(ExtensionValue::Binary(rest)),
        EXTENSION_DATE => match date_of(rest) {
            Some(date) => Ok(ExtensionValue::Date(date)),
            None => Err(Error::InvalidJsonbNumber),
        },
        EXTENSION_TIMESTAMP => match timestamp_of(rest) {
            Some(timestamp) => Ok(ExtensionValue::Timestamp(timestamp)),
            None => Err(Error::InvalidJsonbNumber),
        },
        EXTENSION_TIMESTAMP_TZ => match timestamp_tz_of(rest) {
            Some(zoned) => Ok(ExtensionValue::TimestampTz(zoned)),
            None => Err(Error::InvalidJsonbNumber),
        },
        EXTENSION_INTERVAL => match interval_of(rest) {
            Some(interval) => Ok(ExtensionValue::Interval(interval)),
            None => Err(Error::InvalidJsonbNumber),
        },
        _ => match Opaque::new(tag, rest) {
            Some(opaque) => Ok(ExtensionValue::Opaque(opaque)),
            None => Err(Error::InvalidJsonbExtension),
        },
    }
}

fn date_of(bytes: &[u8]) -> Option<Date>
    ensures found { IfSome result (λ d. IsSigned w32 bytes.now d.value) }
    ensures none { IfNone result ((d : Date) → IsSigned w32 bytes.now d.value → ⊥) }
{
    match bytes.len() {
        4 => Some(Date {
            value: BigEndian::read_i32(bytes),
        }),
        _ => None,
    }
}

fn timestamp_of(bytes: &[u8]) -> Option<Timestamp>
    ensures found { IfSome result (λ t. IsSigned w64 bytes.now t.value) }
    ensures none { IfNone result ((t : Timestamp) → IsSigned w64 bytes.now t.value → ⊥) }
{
    match bytes.len() {
        8 => Some(Timestamp {
            value: BigEndian::read_i64(bytes),
        }),
        _ => None,
    }
}

fn timestamp_tz_of(bytes: &[u8]) -> Option<TimestampTz>
    ensures found { IfSome result (λ t. IsZoned bytes.now t ⊎ IsOldZoned bytes.now t) }
    ensures none { IfNone result
        ((t : TimestampTz) → (IsZoned bytes.now t ⊎ IsOldZoned bytes.now t) → ⊥) }
{
    match bytes.len() {
        12 => Some(TimestampTz {
            offset: BigEndian::read_i32(&bytes[8..]),
            value: BigEndian::read_i64(bytes),
        }),
        9 => Some(TimestampTz {
            offset: i32::from(bytes[8].cast_signed()) * 3600,
            value: BigEndian::read_i64(bytes),
        }),
        _ => None,
    }
}

fn interval_of(bytes: &[u8]) -> Option<Interval>
    ensures found { IfSome result (IsInterval bytes.now) }
    ensures none { IfNone result ((i : Interval) → IsInterval bytes.now i → ⊥) }
{
    if bytes.len() != 16 {
        return None;
    }
    Some(Interval {
        months: BigEndian::read_i32(bytes),
        days: BigEndian::read_i32(&bytes[4..]),
        micros: BigEndian::read_i64(&bytes[8..]),
    })
}

// Appends a tag and its bytes, if an entry can hold them.
fn append_data(buf: &mut Vec<u8>, tag: u8, bytes: &[u8]) -> Result<usize, Error>
    ensures len { IfOk result (λ n. n ≡ length (tag ∷ bytes.now)) }
    ensures appended { OnOk result (buf.new.items ≡ buf.old.items ++ tag ∷ bytes.now) }
    ensures fits { OnOk result (length (tag ∷ bytes.now) < 2 ^ 28) }
    ensures err { OnErr result (buf.new.items ≡ buf.old.items) }
    ensures past { result ≡ Err Error.InvalidJsonb → 2 ^ 28 ≤ length (tag ∷ bytes.now) }
    ensures memory { result ≡ Err Error.OutOfMemory → length (tag ∷ bytes.now) < 2 ^ 28 }
    ensures only { IfErr result (λ e. (e ≡ Error.InvalidJsonb) ⊎ (e ≡ Error.OutOfMemory)) }
    ensures capacity { vec_capacity buf.old ≤ vec_capacity buf.new }
    ensures room { length (tag ∷ bytes.now) < 2 ^ 28
        → vec_len buf.old + length (tag ∷ bytes.now) ≤ vec_capacity buf.old
        → IsOk result }
{
    if bytes.len() > MAX_DATA {
        return Err(Error::InvalidJsonb);
    }
    append_opaque(buf, tag, bytes)
}

fn append_date(buf: &mut Vec<u8>, given: &Date) -> Result<usize, Error>
    ensures { Appends (extension_payload (date given.now)) buf.old buf.new result }
{
    let mut payload = [EXTENSION_DATE, 0, 0, 0, 0];
    BigEndian::write_i32(&mut payload[1..], given.value);
    append(buf, &payload)
}

fn append_timestamp(buf: &mut Vec<u8>, given: &Timestamp) -> Result<usize, Error>
    ensures { Appends (extension_payload (timestamp given.now)) buf.old buf.new result }
{
    let mut payload = [EXTENSION_TIMESTAMP, 0, 0, 0, 0, 0, 0, 0, 0];
    BigEndian::write_i64(&mut payload[1..], given.value);
    append(buf, &payload)
}

fn append_timestamp_tz(buf: &mut Vec<u8>, zoned: &TimestampTz) -> Result<usize, Error>
    ensures { Appends (extension_payload (timestamp_tz zoned.now)) buf.old buf.new result }
{
    let mut payload = [0; 13];
    payload[0] = EXTENSION_TIMESTAMP_TZ;
    BigEndian::write_i64(&mut payload[1..], zoned.value);
    BigEndian::write_i32(&mut payload[9..], zoned.offset);
    append(buf, &payload)
}

fn append_interval(buf: &mut Vec<u8>, given: &Interval) -> Result<usize, Error>
    ensures { Appends (extension_payload (interval given.now)) buf.old buf.new result }
{
    let mut payload = [0; 17];
    payload[0] = EXTENSION_INTERVAL;
    BigEndian::write_i32(&mut payload[1..], given.months);
    BigEndian::write_i32(&mut payload[5..], given.days);
    BigEndian::write_i64(&mut payload[9..], given.micros);
    append(buf, &payload)
}
