//! What the libraries above this one are built of, and their callers rarely need.

pub use crate::json_string::parse_string;
pub use crate::parser::parse_scalar;
pub use crate::text::{write_content, write_number, write_string};
pub use crate::text_depth::is_text_within;
pub use crate::text_len::{extension_len, number_len, string_len};
pub use crate::value::LEAF_PAIRS;
pub use crate::within::refusal_within;
