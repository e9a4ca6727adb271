//! Programs that reply line by line: the loop over any reader and any writer, proved once for all
//! programs.
#![tactic(auto)]

mod answerer;
mod arguments;
mod reader;
mod run;
mod split;
mod write;

pub use answerer::LineAnswerer;
pub use arguments::{Request, request_of};
pub use reader::LineReader;
pub use run::{RunError, answer_lines};
pub use split::split_once;
pub use write::write_bytes;
