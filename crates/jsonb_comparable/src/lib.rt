//! Comparable keys: for each document a byte string, so that the order of the byte strings is the
//! order of the documents. A store that sorts byte strings sorts documents by their keys.
#![tactic(auto)]

mod comparable_key;
mod escape;
mod examples;
mod extension;
mod key;
pub mod laws;
mod number;
mod sink;
mod walk;

pub use comparable_key::ComparableKey;
pub use escape::append_escaped;
pub use key::{KEY_LAYOUT, append_key, key_len};
pub use sink::Sink;
pub use walk::{append_key_to, append_node};
