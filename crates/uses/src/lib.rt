//! Small callers of `jsonb`, one for each main use, and what each obtains from the contracts of the
//! library alone; and how the layers of `jsonb` compose: `ask` queries a document in every way, and
//! `encode_and_ask` first encodes a value.
#![tactic(auto)]

mod build;
mod canonical;
mod compare;
mod composition;
mod document;
mod encode;
mod look_up;
mod parse;
mod print;
mod sample;
mod sort_keys;
mod walk;

pub use build::{array_of_two, row_of};
pub use canonical::canonical_bytes;
pub use compare::is_same_value;
pub use composition::{Answers, ask, encode_and_ask};
pub use document::title_of;
pub use encode::point;
pub use look_up::name_of;
pub use parse::document_of;
pub use print::pretty_text;
pub use sample::prices;
pub use sort_keys::column_order;
pub use walk::first_item;
