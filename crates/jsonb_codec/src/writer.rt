//! Writing a document out of what is stored: a scalar, or an array or object of entries. The
//! encoders and the canonical form write by it, and so do the builders of the crate above.

pub(crate) mod append;
pub(crate) mod code;
pub(crate) mod measure;
pub(crate) mod source;
pub(crate) mod stored;

pub use append::append_document;
pub use code::{Payload, StoredEntry};
pub use source::{Leaf, Level, Side, Source};
pub use stored::{Stored, part_code};
