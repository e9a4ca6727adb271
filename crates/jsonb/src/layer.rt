//! What the libraries above this one are built of, and their callers rarely need: entries and their
//! cursor, look-ups of an entry, also in a prefix of the bytes, the parts of checked documents, the
//! order of bytes within a depth, the writer, and steps of reading and printing texts.

pub use crate::entries::{Cursor, Entry, payloads_end};
pub use crate::iterator::{
    ArrayItems, ChildKind, Children, ItemIterator, ObjectKeys, ObjectValues,
};
pub use crate::lookup::{Progress, find_entry, find_index_in_prefix, find_key_in_prefix};
pub use crate::order::cmp_within;
pub use jsonb_codec::layer::{
    DocumentBytes, append_canonical, append_canonical_document, decode_header, document_text,
    is_canonical_document, read_word, value_of_document,
};
pub use jsonb_codec::{parts, writer};
pub use jsonb_value::layer::{
    LEAF_PAIRS, extension_len, is_text_within, number_len, parse_scalar, parse_string,
    refusal_within, string_len, write_content, write_number, write_string,
};
