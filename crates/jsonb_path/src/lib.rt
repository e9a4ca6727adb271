//! Path texts of SQL/JSON, and what they mean over documents.
#![tactic(auto)]

mod ask;
mod choose;
pub mod compare;
mod compute;
mod descend;
mod direct;
mod examples;
mod follow;
mod given;
mod height;
pub mod hint;
mod method;
pub mod number;
mod outcome;
mod pairs;
pub mod path;
mod place;
mod print;
mod query;
mod read;
mod steps;
pub mod token;
mod value;

pub use compare::{Comparison, Scalar, Truth};
pub use hint::{Hint, Report};
pub use number::NumberError;
pub use outcome::Outcome;
pub use path::{
    Accessor, Level, Literal, Method, Mode, Operator, Part, Path, PathError, Sign, Source,
    Subscript, Test,
};
pub use read::{Expected, LeftOut};
pub use steps::steps_of;
