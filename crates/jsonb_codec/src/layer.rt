//! What the libraries above this one are built of, and their callers rarely need.

pub use crate::canonical::{append_canonical, append_canonical_document, is_canonical_document};
pub use crate::de::value_of_document;
pub use crate::document::{DocumentBytes, document_text};
pub use crate::word::{decode_header, read_word};
