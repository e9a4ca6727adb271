//! The tags and masks of header words and entry words.

/// The header word of an array: this tag plus the count of its items.
pub const ARRAY_CONTAINER_TAG: u32 = 0x80000000;

/// The header word of an object: this tag plus the count of its pairs.
pub const OBJECT_CONTAINER_TAG: u32 = 0x40000000;

/// The header word of a scalar; one entry follows.
pub const SCALAR_CONTAINER_TAG: u32 = 0x20000000;

/// The bits of a header word that hold its kind.
pub const CONTAINER_HEADER_TYPE_MASK: u32 = 0xE0000000;

/// The bits of a header word that hold its count.
pub const CONTAINER_HEADER_LEN_MASK: u32 = 0x1FFFFFFF;

/// The type of an entry for null.
pub const NULL_TAG: u32 = 0x00000000;

/// The type of an entry for a string or a key.
pub const STRING_TAG: u32 = 0x10000000;

/// The type of an entry for a number.
pub const NUMBER_TAG: u32 = 0x20000000;

/// The type of an entry for false.
pub const FALSE_TAG: u32 = 0x30000000;

/// The type of an entry for true.
pub const TRUE_TAG: u32 = 0x40000000;

/// The type of an entry for a nested array or object.
pub const CONTAINER_TAG: u32 = 0x50000000;

/// The type of an entry for an extension value.
pub const EXTENSION_TAG: u32 = 0x60000000;

/// The bit of an entry word that marks an offset in place of a length. No document sets it.
pub const JENTRY_IS_OFF_FLAG: u32 = 0x80000000;

/// The bits of an entry word that hold its type.
pub const JENTRY_TYPE_MASK: u32 = 0x70000000;

/// The bits of an entry word that hold the length of its payload in bytes.
pub const JENTRY_OFF_LEN_MASK: u32 = 0x0FFFFFFF;

pub use jsonb_value::constants::{
    EXTENSION_BINARY, EXTENSION_DATE, EXTENSION_INTERVAL, EXTENSION_TIMESTAMP,
    EXTENSION_TIMESTAMP_TZ, NUMBER_DECIMAL, NUMBER_FLOAT, NUMBER_INF, NUMBER_INT, NUMBER_NAN,
    NUMBER_NEG_INF, NUMBER_UINT, NUMBER_ZERO,
};
