//! Tests of single calls that are not lines of a program: limits of the format, closures, iterators
//! at their ends, values that are given, keys, faults of texts, and which calls allocate nothing.
//!
//! Proving a test costs more than in proportion to its body, for each call that can fail and each
//! value that is dropped. So a table is one constant, and a function that takes a row, or builds
//! one value, has what the rows share.
#![tactic(auto)]

#[cfg(test)]
mod builders;
#[cfg(test)]
mod comparable;
#[cfg(test)]
mod constants;
#[cfg(test)]
mod encoding;
#[cfg(test)]
mod errors;
#[cfg(test)]
mod faults;
#[cfg(test)]
mod functions;
#[cfg(test)]
mod items;
#[cfg(test)]
mod lookup;
#[cfg(test)]
mod member_texts;
#[cfg(test)]
mod names;
#[cfg(test)]
mod no_requests;
#[cfg(test)]
mod queue;
#[cfg(test)]
mod readers;
#[cfg(test)]
mod sets;
#[cfg(test)]
mod texts;
#[cfg(test)]
mod typed_chunks;
#[cfg(test)]
mod typed_files;
#[cfg(test)]
mod typed_rest;
#[cfg(test)]
mod typed_zones;
#[cfg(test)]
mod written_files;
