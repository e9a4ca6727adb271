//! JSON values as they come: those that stand one after another, and the items of one array. They
//! are told apart by their brackets, quotes and commas alone.
#![tactic(auto)]

mod array;
mod held;
pub mod laws;
mod line;
mod value;

pub use array::{ArrayFault, FoundItem, begins_array, read_item};
pub use held::ReadFault;
pub use line::begins_container;
pub use value::read_value;
