//! The keys of extension values.

ghost use Rattle.std.specs.Prelude.{◌≡◌, ◌+◌, ◌^◌, ◌++◌};
ghost use Rattle.jsonb_comparable.specs.Words.{extension_of, extension_kind, biased, biased_32};
ghost use Rattle.jsonb_comparable.specs.Words.{biased_64};
ghost use Rattle.jsonb_comparable.specs.Words.{fields_key, extension_key};

use crate::escape::{append_escaped, append_marked};
use crate::sink::Sink;
use jsonb::{ExtensionValue, Interval};

// A number, biased.
fn biased_i32(value: i32) -> u32
    ensures { result ≡ biased (2 ^ 31) value }
{
    (i64::from(value) + 0x8000_0000) as u32
}

fn biased_i64(value: i64) -> u64
    ensures { result ≡ biased (2 ^ 63) value }
{
    (i128::from(value) + 0x8000_0000_0000_0000) as u64
}

// A number of so many bits.
#[tactic(auto, unfolding(crate::specs::ExtensionKey::biased_32))]
fn append_i32<S: Sink>(value: i32, sink: &mut S)
    requires { S.room sink.old (biased_32 value) }
    ensures { S.appends sink.old sink.new (biased_32 value) }
{
    sink.append(&biased_i32(value).to_be_bytes());
}

#[tactic(auto, unfolding(crate::specs::ExtensionKey::biased_64))]
fn append_i64<S: Sink>(value: i64, sink: &mut S)
    requires { S.room sink.old (biased_64 value) }
    ensures { S.appends sink.old sink.new (biased_64 value) }
{
    sink.append(&biased_i64(value).to_be_bytes());
}

// A timestamp and its offset.
fn append_zoned<S: Sink>(value: i64, offset: i32, sink: &mut S)
    requires { S.room sink.old (biased_64 value ++ biased_32 offset) }
    ensures { S.appends sink.old sink.new (biased_64 value ++ biased_32 offset) }
{
    append_i64(value, sink);
    append_i32(offset, sink);
}

// The numbers of an interval.
fn append_interval<S: Sink>(months: i32, days: i32, micros: i64, sink: &mut S)
    requires { S.room sink.old (biased_32 months ++ (biased_32 days ++ biased_64 micros)) }
    ensures { S.appends sink.old sink.new
        (biased_32 months ++ (biased_32 days ++ biased_64 micros)) }
{
    append_i32(months, sink);
    append_i32(days, sink);
    append_i64(micros, sink);
}

// The first byte of a value's key.
fn first_byte(value: ExtensionValue<'_>) -> u8
    ensures { result ≡ 16 + extension_kind (extension_of value.entry) }
{
    match value {
        ExtensionValue::Binary(_) => 16,
        ExtensionValue::Date(_) => 17,
        ExtensionValue::Timestamp(_) => 18,
        ExtensionValue::TimestampTz(_) => 19,
        ExtensionValue::Interval(_) => 20,
        ExtensionValue::Opaque(_) => 21,
    }
}

// The fields of a value.
fn append_fields<S: Sink>(value: ExtensionValue<'_>, sink: &mut S)
    requires { S.room sink.old (fields_key (extension_of value)) }
    ensures { S.appends sink.old sink.new (fields_key (extension_of value.entry)) }
{
    match value {
        ExtensionValue::Binary(bytes) => append_escaped(bytes, sink),
        ExtensionValue::Date(date) => append_i32(date.value, sink),
        ExtensionValue::Timestamp(timestamp) => append_i64(timestamp.value, sink),
        ExtensionValue::TimestampTz(zoned) => append_zoned(zoned.value, zoned.offset, sink),
        ExtensionValue::Interval(
            Interval {
                months,
                days,
                micros,
            },
        ) => append_interval(months, days, micros, sink),
        ExtensionValue::Opaque(opaque) => append_marked(opaque.tag(), opaque.bytes(), sink),
    }
}

/// Appends the key of an extension value.
pub fn append_extension<S: Sink>(value: ExtensionValue<'_>, sink: &mut S)
    requires { S.room sink.old (extension_key (extension_of value)) }
    ensures { S.appends sink.old sink.new (extension_key (extension_of value.entry)) }
{
    sink.append(&[first_byte(value)]);
    append_fields(value, sink);
}
