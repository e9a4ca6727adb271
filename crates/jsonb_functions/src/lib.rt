//! Functions over documents: what is in them, edited and joined copies, and keys for an index. They
//! walk documents that were checked in place, and make no value of one.
#![tactic(auto)]

mod array_sets;
mod choice;
mod chosen;
mod containment;
mod digits;
mod edit;
mod examples;
mod extent;
mod filter;
mod found;
mod index;
mod join;
mod key_tests;
mod keys;
pub mod laws;
mod marks;
mod name_list;
mod names;
mod overlay;
mod patch;
mod path;
mod path_document;
mod path_text;
mod picked;
mod places;
mod pointer;
mod scalars;
mod selection;
mod steps;
mod stored_path;
mod strip;
mod top_keys;
mod walk;

pub use array_sets::{array_distinct, array_except, array_intersection, array_overlap};
pub use choice::Kept;
pub use containment::{contains, contains_within, exists};
pub use edit::{Edit, edit_document};
pub use filter::{Comparison, Condition, Term, Test, holds};
pub use found::get_path;
pub use index::append_index_keys;
pub use join::concat;
pub use key_tests::{exists_all, exists_any};
pub use keys::object_keys;
pub use name_list::read_name_list;
pub use names::steps_of_names;
pub use patch::merge_patch;
pub use path::Step;
pub use path_document::document_of_path;
pub use path_text::{read_path_text, steps_of_path};
pub use picked::pick;
pub use places::{bytes_at, place_at_end, whole_place};
pub use pointer::read_pointer;
pub use selection::{
    Bound, Selector, count_before, count_through, exists_path, select, select_first, select_places,
    select_places_within, select_within, step_at,
};
pub use stored_path::read_path;
pub use strip::strip_nulls;
pub use top_keys::{append_top_keys, top_key};
