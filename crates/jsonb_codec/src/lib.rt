//! The binary format of JSON documents: checking, decoding, encoding and the canonical form.
#![tactic(auto)]

mod ascii;
mod canonical;
pub mod constants;
mod de;
mod document;
mod examples;
mod jentry;
pub mod laws;
pub mod layer;
pub mod parts;
mod ser;
mod tape;
mod word;
pub mod writer;

pub use canonical::is_canonical;
pub use de::{Decoder, value_of};
pub use document::{is_document, is_document_within, nests_deeper};
pub use jentry::JEntry;
pub use ser::{Encoder, JsonAstEncoder};
pub use tape::{encode_text, encode_text_within};
pub use word::{read_header, read_jentry};
