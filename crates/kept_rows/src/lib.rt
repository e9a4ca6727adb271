//! Rows that are kept by their keys: the first of each key, and the first so many in the order of
//! the keys. Keys are bytes, and come in the order of bytes.
#![tactic(auto)]

mod seen;
#[cfg(test)]
mod tests;
mod top;

pub use seen::SeenKeys;
pub use top::TopRows;
