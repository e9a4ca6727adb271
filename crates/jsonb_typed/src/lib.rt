//! Typed columns: a member of all rows as a vector of one type, and beside it the members that do
//! not fit the type.
#![tactic(auto)]

mod binaries;
mod column_type;
mod columns;
mod keeping;
mod lattice;
mod laws;
mod member;
mod names;
mod numbers;
mod scalar;
mod survey;
mod texts;
mod types;

pub use binaries::{binary_of, extract_binary, push_binary};
pub use column_type::ColumnType;
pub use columns::{extract, push_member, push_row};
pub use keeping::opened;
pub use lattice::{LeastType, holds_all, least_type};
pub use laws::least_laws;
pub use member::member_of;
pub use names::{parse_type, type_text};
pub use numbers::{Fit, value_at_scale};
pub use scalar::{ScalarType, is_scalar, split_type, type_bytes};
pub use survey::{Scales, Survey};
pub use texts::{extract_texts, push_text};
pub use types::{
    Boolean, Dates, Decimal, Int64, Intervals, Nothing, Timestamps, UInt64, ZonedTimestamps,
};
