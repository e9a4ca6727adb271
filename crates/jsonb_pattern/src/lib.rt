//! The regular expressions of `like_regex`: those that PostgreSQL and the crate `regex` read alike.
#![tactic(auto)]

mod flags;
mod letters;
mod pattern;
mod place;
mod translate;

pub use flags::Flags;
pub use pattern::{Pattern, PatternError};
pub use place::Place;
pub use translate::PatternFault;
