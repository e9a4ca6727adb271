//! Documents made of extension values, and the extension values read from documents.

ghost use Rattle.std.specs.Prelude.{IfNone, IfSome, length, ◌≡◌};
ghost use Rattle.kohiblad.specs.Words.{Doc, Error, Extension, IsExtension, IsGivenBy, IsRefused};
ghost use Rattle.kohiblad.specs.Words.{IsShortExtension, IsWrittenOut, canon, code, data_answer};
ghost use Rattle.kohiblad.specs.Words.{data_of, extension, extension_answer, extension_of, kind};
ghost use Rattle.kohiblad.specs.Words.{kind_answer, no_extension, why_none};

use crate::answer::{OK, code, hand_over_made, refuse};
use crate::scalar::{scalar_part, why_none};
use jsonb::{
    Date, Error, ExtensionItem, ExtensionValue, Interval, JsonbItem, Opaque, OwnedJsonb, Timestamp,
    TimestampTz,
};
use jsonb_codec::constants::EXTENSION_TAG;
use jsonb_value::constants::{
    EXTENSION_BINARY, EXTENSION_DATE, EXTENSION_INTERVAL, EXTENSION_TIMESTAMP,
    EXTENSION_TIMESTAMP_TZ,
};
use std::alloc::Global;

// The kind of an extension value, as `kohiblad_kind` returns it.
const EXTENSION: u32 = 4;

/// An extension value. `tag` is the first byte of its payload. `value` is the number of a date or a
/// timestamp, or an interval's microseconds; `months` and `days` are an interval's; `seconds` is
/// the offset of a timestamp's zone; `offset` and `length` are the position of the data of a binary
/// value or one with a newer tag. Fields that the tag does not have are 0, and all are 0 if the
/// status is not `OK`.
#[repr(C)]
#[derive(Clone, Copy)]
pub struct KohibladExtension {
    pub status: u32,
    pub tag: u32,
    pub value: i64,
    pub months: i32,
    pub days: i32,
    pub seconds: i32,
    pub offset: u64,
    pub length: u64,
}

/// Copies the canonical document of an extension value to `out`. The value is given by its tag and
/// fields as `kohiblad_as_extension` returns them, and by its data; fields that the tag does not
/// have must be 0, and the data empty. `InvalidJsonbExtension` if no extension value has this tag,
/// these fields and this data, so also if a date does not fit in 32 bits; `InvalidJsonb` if the
/// data have 2^28 - 1 bytes or more; `OutOfMemory` if an allocation fails.
#[unsafe(no_mangle)]
pub extern "C" fn kohiblad_of_extension(
    alloc: Global,
    tag: u32,
    value: i64,
    months: i32,
    days: i32,
    seconds: i32,
    content: &[u8],
    out: &mut [u8],
    length: &mut usize,
) -> u32
    ensures value { (e : Extension) → IsGivenBy e tag value months days seconds content.now
        → IsShortExtension e
        → IsWrittenOut (canon (extension e)) out.old out.new length.new result }
    ensures past { (e : Extension) → IsGivenBy e tag value months days seconds content.now
        → (IsShortExtension e → ⊥)
        → IsRefused (code Error.InvalidJsonb) out.old out.new length.new result }
    ensures other { ((e : Extension) → IsGivenBy e tag value months days seconds content.now → ⊥)
        → IsRefused (code Error.InvalidJsonbExtension) out.old out.new length.new result }
{
    match extension_with(tag, value, months, days, seconds, content) {
        Some(extension) => write_extension(alloc, extension, out, length),
        None => refuse(code(Error::InvalidJsonbExtension), out, length),
    }
}

// The extension value with this tag, these fields and this data. `None` if there is none.
fn extension_with<'a>(
    tag: u32,
    value: i64,
    months: i32,
    days: i32,
    seconds: i32,
    content: &'a [u8],
) -> Option<ExtensionValue<'a>>
    ensures some { IfSome result
        (λ x. IsGivenBy (extension_of x) tag value months days seconds content.entry.now) }
    ensures one { IfSome result (λ x. (e : Extension)
        → IsGivenBy e tag value months days seconds content.entry.now → e ≡ extension_of x) }
    ensures none { IfNone result ((e : Extension)
        → IsGivenBy e tag value months days seconds content.entry.now → ⊥) }
{
    let Some(found) = extension_at(tag, value, months, days, seconds, content) else {
        return None;
    };
    let fields = fields_of(found);
    if fields.value == value
        && fields.months == months
        && fields.days == days
        && fields.seconds == seconds
        && fields.length == content.len() as u64
    {
        Some(found)
    } else {
        None
    }
}

// The extension value of a tag, made of the fields that the tag has; others are ignored. `None` if
// there is none.
fn extension_at<'a>(
    tag: u32,
    value: i64,
    months: i32,
    days: i32,
    seconds: i32,
    content: &'a [u8],
) -> Option<ExtensionValue<'a>>
    ensures is { IfSome result (λ x. IsExtension (extension_of x)) }
    ensures tag { IfSome result (λ x. (extension_answer (extension_of x)).tag ≡ tag) }
    ensures content { IfSome result (λ x.
        (extension_answer (extension_of x)).length ≡ length content.entry.now
        → data_of (extension_of x) ≡ content.entry.now) }
    ensures one { IfSome result (λ x. (e : Extension)
        → IsGivenBy e tag value months days seconds content.entry.now → e ≡ extension_of x) }
    ensures none { IfNone result ((e : Extension)
        → IsGivenBy e tag value months days seconds content.entry.now → ⊥) }
{
    match u8::try_from(tag).ok()? {
        EXTENSION_BINARY => Some(ExtensionValue::Binary(content)),
        EXTENSION_DATE => Some(ExtensionValue::Date(Date {
            value: i32::try_from(value).ok()?,
        })),
        EXTENSION_TIMESTAMP => Some(ExtensionValue::Timestamp(Timestamp { value })),
        EXTENSION_TIMESTAMP_TZ => Some(ExtensionValue::TimestampTz(TimestampTz {
            offset: seconds,
            value,
        })),
        EXTENSION_INTERVAL => Some(ExtensionValue::Interval(Interval {
            months,
            days,
            micros: value,
        })),
        tag => Some(ExtensionValue::Opaque(Opaque::new(tag, content)?)),
    }
}

// Copies out the document of an extension value.
fn write_extension(alloc: Global, value: ExtensionValue, out: &mut [u8], length: &mut usize) -> u32
    ensures value { IsShortExtension (extension_of value.entry)
        → IsWrittenOut (canon (extension (extension_of value.entry))) out.old out.new length.new
        result }
    ensures past { (IsShortExtension (extension_of value.entry) → ⊥)
        → IsRefused (code Error.InvalidJsonb) out.old out.new length.new result }
{
    let item = JsonbItem::Extension(ExtensionItem::from_value(value));
    hand_over_made(OwnedJsonb::from_item(alloc, item), out, length)
}

/// The tag and fields of the extension value in the document of one. `InvalidEOF` if one of the
/// first two words is cut off; `InvalidJsonb` if these are of no kind, or the bytes begin like an
/// extension value but are not a document; `OTHER_KIND` if they begin like a value of another kind.
#[unsafe(no_mangle)]
pub extern "C" fn kohiblad_as_extension(bytes: &[u8]) -> KohibladExtension
    ensures extension { (e : Extension) → Doc bytes.now (extension e)
        → result ≡ extension_answer e }
    ensures other { ((e : Extension) → Doc bytes.now (extension e) → ⊥)
        → result ≡ no_extension (why_none 4 (kind_answer (kind bytes.now))) }
{
    match extension_in(bytes) {
        Some(value) => fields_of(value),
        None => no_extension(why_none(bytes, EXTENSION)),
    }
}

// The extension value in the document of one. `None` for all other bytes.
fn extension_in(bytes: &[u8]) -> Option<ExtensionValue<'_>>
    ensures found { IfSome result (λ x. Doc bytes.now (extension (extension_of x))) }
    ensures none { IfNone result ((e : Extension) → Doc bytes.now (extension e) → ⊥) }
{
    let Some(part) = scalar_part(bytes) else {
        return None;
    };
    if part.type_code == EXTENSION_TAG {
        Some(part.extension())
    } else {
        None
    }
}

// The tag and fields of an extension value. Data are at the offset 9 of its document, after two
// words and the tag.
fn fields_of(value: ExtensionValue<'_>) -> KohibladExtension
    ensures { result ≡ extension_answer (extension_of value.entry) }
{
    let none = no_extension(OK);
    match value {
        ExtensionValue::Binary(bytes) => data_of(EXTENSION_BINARY, bytes),
        ExtensionValue::Date(date) => KohibladExtension {
            tag: u32::from(EXTENSION_DATE),
            value: i64::from(date.value),
            ..none
        },
        ExtensionValue::Timestamp(timestamp) => KohibladExtension {
            tag: u32::from(EXTENSION_TIMESTAMP),
            value: timestamp.value,
            ..none
        },
        ExtensionValue::TimestampTz(timestamp) => KohibladExtension {
            tag: u32::from(EXTENSION_TIMESTAMP_TZ),
            value: timestamp.value,
            seconds: timestamp.offset,
            ..none
        },
        ExtensionValue::Interval(interval) => KohibladExtension {
            tag: u32::from(EXTENSION_INTERVAL),
            value: interval.micros,
            months: interval.months,
            days: interval.days,
            ..none
        },
        ExtensionValue::Opaque(opaque) => data_of(opaque.tag(), opaque.bytes()),
    }
}

// The fields of a value that has data. They follow the tag, which follows two words.
fn data_of(tag: u8, bytes: &[u8]) -> KohibladExtension
    ensures { result ≡ data_answer tag (length bytes.now) }
{
    KohibladExtension {
        tag: u32::from(tag),
        offset: 9,
        length: bytes.len() as u64,
        ..no_extension(OK)
    }
}

// A result with this status, and with all fields 0.
fn no_extension(status: u32) -> KohibladExtension
    ensures { result ≡ no_extension status }
{
    KohibladExtension {
        status,
        tag: 0,
        value: 0,
        months: 0,
        days: 0,
        seconds: 0,
        offset: 0,
        length: 0,
    }
}
