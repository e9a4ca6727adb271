//! Rows made anew: values changed at each place of a path with wildcards.
#![tactic(auto)]

mod each;
mod reach;
mod value;

pub use each::{EachEdit, edit_each, leads_somewhere};
pub use reach::{Range, Reach};
pub use value::{encoded, value_of};
