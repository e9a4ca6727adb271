//! Binary JSON documents, read from their bytes without decoding: kinds, items, look-ups,
//! iterators, texts and order; and builders of new documents.
#![tactic(auto)]

mod builder;
mod code;
mod copies;
mod document;
mod entries;
mod examples;
mod extension_item;
mod item;
mod item_type;
mod iterator;
pub mod laws;
pub mod layer;
mod lookup;
mod node;
mod nodes;
mod number_item;
mod order;
mod owned;
mod raw;
mod sort_key;
mod sorting;
mod stored_row;
mod text;
mod text_len;
mod written;

pub use builder::{ArrayBuilder, ArrayDistinctBuilder, ObjectBuilder};
pub use document::{Contents, Document};
pub use extension_item::ExtensionItem;
pub use item::JsonbItem;
pub use item_type::JsonbItemType;
pub use iterator::{ArrayIterator, ObjectIterator, ObjectKeyIterator, ObjectValueIterator};
pub use jsonb_codec::{
    Decoder, Encoder, JEntry, JsonAstEncoder, constants, encode_text, encode_text_within,
    is_canonical, is_document, is_document_within, nests_deeper, read_header, read_jentry,
    value_of,
};
pub use jsonb_value::{
    Date, Decimal64, Decimal128, Error, Exponents, ExtensionValue, Interval, JsonAst, Number,
    Object, Opaque, ParseError, Sink, Timestamp, TimestampTz, Value, extension_text, is_json,
    parse_value, parse_value_with_exponents, parse_value_with_exponents_within, parse_value_within,
    read_text, read_text_within,
};
pub use lookup::{FoundValue, MAX_READS, Reads};
pub use node::Node;
pub use nodes::{Items, Members};
pub use number_item::NumberItem;
pub use owned::OwnedJsonb;
pub use raw::RawJsonb;
pub use sort_key::SortKey;
pub use sorting::sort_views;
pub use stored_row::{append_row, split_row};
