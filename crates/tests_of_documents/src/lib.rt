//! Tests over the known documents, laws over pairs and triples of documents, and what remains after
//! a failed allocation. The tests of single calls are in `tests_of_calls`, those by lines in
//! `tests/lines`.
//!
//! Proving a test costs more than in proportion to its body, for each call that can fail and each
//! value that is dropped. So a table is one constant, and a function that takes a row, or builds
//! one value, has what the rows share.
#![tactic(auto)]

#[cfg(test)]
mod changes;
#[cfg(test)]
mod depth;
#[cfg(test)]
mod documents;
#[cfg(test)]
mod memory;
#[cfg(test)]
mod order;
#[cfg(test)]
mod parser;
#[cfg(test)]
mod texts;
#[cfg(test)]
mod value_texts;
