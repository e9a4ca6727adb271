//! The laws of texts, values, documents and their orders, for proofs.

pub use crate::order::{byte_order_laws, key_order_laws, meaning_laws};
pub use crate::text::text_laws;
pub use jsonb_codec::laws::{canonical_laws, document_laws, printed_text_laws};
pub use jsonb_value::laws::{
    json_laws, order_of_extension_values, order_of_meanings, order_of_numbers, order_of_trees,
};
