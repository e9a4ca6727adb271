//! The values that a binary JSON document can hold, their payloads, and the error type.
#![tactic(auto)]

mod ast;
pub mod constants;
mod error;
mod examples;
mod extension;
mod json_string;
pub mod laws;
pub mod layer;
mod number;
mod opaque;
mod order;
mod parser;
mod payload;
mod runs;
mod text;
mod text_depth;
mod text_len;
mod value;
mod within;

pub use ast::JsonAst;
pub use error::Error;
pub use extension::{Date, ExtensionValue, Interval, Timestamp, TimestampTz};
pub use number::{Decimal64, Decimal128, Number};
pub use opaque::Opaque;
pub use parser::{
    Exponents, Sink, is_json, parse_value, parse_value_with_exponents, read_text, read_text_within,
};
pub use text::extension_text;
pub use value::{Object, Value};
pub use within::{ParseError, parse_value_with_exponents_within, parse_value_within};
