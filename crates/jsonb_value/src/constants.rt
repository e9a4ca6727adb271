//! The first byte of the payload of a number or an extension value: its kind.

/// The number zero; the whole payload is this byte.
pub const NUMBER_ZERO: u8 = 0x00;

/// Not a number. Reserved: no payload of this layer begins with it.
pub const NUMBER_NAN: u8 = 0x10;

/// Infinity. Reserved: no payload of this layer begins with it.
pub const NUMBER_INF: u8 = 0x20;

/// Negative infinity. Reserved: no payload of this layer begins with it.
pub const NUMBER_NEG_INF: u8 = 0x30;

/// A signed integer of 1, 2, 4 or 8 bytes.
pub const NUMBER_INT: u8 = 0x40;

/// An unsigned integer of 1, 2, 4 or 8 bytes.
pub const NUMBER_UINT: u8 = 0x50;

/// A floating-point number. Reserved: no payload of this layer begins with it.
pub const NUMBER_FLOAT: u8 = 0x60;

/// A decimal: its value, then its scale.
pub const NUMBER_DECIMAL: u8 = 0x70;

/// Binary data: any bytes.
pub const EXTENSION_BINARY: u8 = 0x00;

/// A date: a signed integer of 4 bytes.
pub const EXTENSION_DATE: u8 = 0x10;

/// A timestamp: a signed integer of 8 bytes.
pub const EXTENSION_TIMESTAMP: u8 = 0x20;

/// A timestamp with the offset of its time zone.
pub const EXTENSION_TIMESTAMP_TZ: u8 = 0x30;

/// An interval: months, days and microseconds.
pub const EXTENSION_INTERVAL: u8 = 0x40;
