//! The errors of reading and writing a file of typed columns.

ghost use Rattle.std.specs.Prelude.{◌≡◌};
ghost use Rattle.jsonb_typed_file.specs.declared.error.FileError.TheVariants.{OutOfMemory};
ghost use Rattle.jsonb_typed_file.specs.declared.error.WriteError.TheVariants as write_errors;

use std::alloc::{AllocError, AllocFailed};

/// Why bytes are refused as a file of typed columns.
#[derive(Clone, Copy, Debug, PartialEq, Eq, thiserror::Error)]
pub enum FileError {
    /// The bytes do not begin as such a file.
    #[error("not a file of typed columns")]
    BadMagic,
    /// The file has another version of the format.
    #[error("unknown version")]
    UnknownVersion,
    /// The bytes end before the file does.
    #[error("the file is cut off")]
    Cut,
    /// There are bytes after the end of the file.
    #[error("bytes after the end of the file")]
    TrailingData,
    /// The length of a buffer does not fit the number of rows.
    #[error("a length does not fit the number of rows")]
    WrongLength,
    /// A type is unknown, the names are not UTF-8 or do not ascend strictly, a text is not UTF-8,
    /// offsets are not in order or not within their bytes, or the rest of a row is not a document.
    #[error("contents out of form")]
    OutOfForm,
    /// The rest of a row nests deeper than the given depth.
    #[error("the rest of a row nests too deep")]
    TooDeep,
    /// An allocation failed.
    #[error("out of memory")]
    OutOfMemory,
}

impl From<AllocError> for FileError {
    ghost from_gives = { λ _ e. e ≡ OutOfMemory };

    fn from(_error: AllocError) -> FileError {
        FileError::OutOfMemory
    }
}

impl<T: Drop> From<AllocFailed<T>> for FileError {
    ghost from_gives = { λ _ e. e ≡ OutOfMemory };

    fn from(_failed: AllocFailed<T>) -> FileError {
        FileError::OutOfMemory
    }
}

/// Why no file was written.
#[derive(Clone, Copy, Debug, PartialEq, Eq, thiserror::Error)]
pub enum WriteError {
    /// The names of the columns do not ascend strictly by their bytes.
    #[error("the names of the columns do not ascend")]
    NamesNotAscending,
    /// There are 2^32 columns or more.
    #[error("too many columns")]
    TooManyColumns,
    /// A row has no canonical document, since it exceeds a limit of the format.
    #[error("a row exceeds a limit of the format")]
    RowTooLarge,
    /// The file did not give the rows back when it was read again.
    #[error("the file does not give the rows back")]
    NotReadBack,
    /// An allocation failed.
    #[error("out of memory")]
    OutOfMemory,
}

impl From<AllocError> for WriteError {
    ghost from_gives = { λ _ e. e ≡ write_errors.OutOfMemory };

    fn from(_error: AllocError) -> WriteError {
        WriteError::OutOfMemory
    }
}

impl<T: Drop> From<AllocFailed<T>> for WriteError {
    ghost from_gives = { λ _ e. e ≡ write_errors.OutOfMemory };

    fn from(_failed: AllocFailed<T>) -> WriteError {
        WriteError::OutOfMemory
    }
}
