//! Files of typed columns: chosen members of the rows are kept in typed buffers, and the other
//! members of each row in a document.
#![tactic(auto)]

mod buffers;
mod check;
mod column;
mod error;
mod file;
mod fixed;
mod form;
mod header;
mod layout;
mod one_row;
mod places;
mod row;
mod stored;
mod strings;
mod write;

pub use column::{StoredColumn, StoredValue};
pub use error::{FileError, WriteError};
pub use file::TypedFile;
pub use places::{ColumnPlaces, SectionPlace, column_places};
pub use write::{ColumnPlan, write_file};
