//! The functions for callers in C, each a thin layer over one of the library's. Bytes are passed by
//! pointer and length. This is true of all of them:
//!
//! - Depth: a scalar has depth 0, an array or object one more than its deepest child, and at least
//!   1. A call with a depth looks no deeper: to it a document that nests deeper is not a document.
//! - Results: bytes, hashes, positions and zones are copied to the start of `out` if they fit, and
//!   how many they are is stored in `length` or `count`. `NO_ROOM` if `out` is shorter; it is then
//!   unchanged. With every other status but `OK`, `out` is unchanged, and `length` or `count` is 0.
//! - Structs: if the status is not `OK`, the other fields are 0.
//! - Rows: row k begins at `offsets[k]` and ends at `offsets[k + 1]`.
//!
//! What differs, a call says itself.
#![tactic(auto)]

mod answer;
mod array_sets;
mod building;
mod canonical;
mod checked;
mod checked_rows;
mod children;
mod column_survey;
mod containment;
mod documents;
mod edit;
mod entry_texts;
mod handed_texts;
mod index;
mod join;
mod key;
mod key_parts;
mod key_sink;
mod key_tests;
mod laws;
mod listed;
mod located;
mod locating;
mod member_table;
mod named_paths;
mod names;
mod patch;
mod path_queries;
mod path_texts;
mod paths;
mod picking;
mod placed_members;
mod places;
mod prefix;
mod row_paths;
mod row_walk;
mod rows;
mod scalar;
mod sort;
mod strip;
mod taken_dates;
mod taken_numbers;
mod taken_texts;
mod taken_values;
mod taking;
mod taking_texts;
mod text_expected;
mod text_fault;
mod texts;
mod typed_files;
mod typed_writing;
mod unchecked_rows;
mod zone_structs;
mod zones;
