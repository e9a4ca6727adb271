//! The error type of this layer.

ghost use Rattle.std.specs.Prelude.{◌≡◌};
ghost use Rattle.jsonb_value.specs.Words.{OutOfMemory, name_of};

use std::alloc::{AllocError, AllocFailed};

/// Why a call was refused. Each function documents which variants it can return.
#[derive(Clone, Copy, Debug, PartialEq, Eq, thiserror::Error)]
pub enum Error {
    /// The bytes end inside a header or an entry word.
    #[error("InvalidEOF")]
    InvalidEOF,
    /// The bytes are not a document, or a value exceeds a limit of the format.
    #[error("InvalidJsonb")]
    InvalidJsonb,
    /// A header of a kind that is not allowed at its position.
    #[error("InvalidJsonbHeader")]
    InvalidJsonbHeader,
    /// An entry word of a type that is not allowed at its position.
    #[error("InvalidJsonbJEntry")]
    InvalidJsonbJEntry,
    /// A number's payload is invalid, or an extension payload has the wrong length for its tag.
    #[error("InvalidJsonbNumber")]
    InvalidJsonbNumber,
    /// An extension payload is empty or has an unknown tag.
    #[error("InvalidJsonbExtension")]
    InvalidJsonbExtension,
    /// A string or key that is not UTF-8.
    #[error("InvalidUtf8")]
    InvalidUtf8,
    /// A key that the object already has.
    #[error("ObjectDuplicateKey")]
    ObjectDuplicateKey,
    /// A text that is not accepted JSON.
    #[error("InvalidJson")]
    InvalidJson,
    /// An allocation failed.
    #[error("OutOfMemory")]
    OutOfMemory,
}

impl Error {
    /// The variant's name, which `Display` also writes.
    pub fn name(&self) -> &'static str
        ensures { result.now ≡ name_of self.now }
    {
        match self {
            Error::InvalidEOF => "InvalidEOF",
            Error::InvalidJsonb => "InvalidJsonb",
            Error::InvalidJsonbHeader => "InvalidJsonbHeader",
            Error::InvalidJsonbJEntry => "InvalidJsonbJEntry",
            Error::InvalidJsonbNumber => "InvalidJsonbNumber",
            Error::InvalidJsonbExtension => "InvalidJsonbExtension",
            Error::InvalidUtf8 => "InvalidUtf8",
            Error::ObjectDuplicateKey => "ObjectDuplicateKey",
            Error::InvalidJson => "InvalidJson",
            Error::OutOfMemory => "OutOfMemory",
        }
    }
}

impl From<AllocError> for Error {
    ghost from_gives = { λ _ e. e ≡ OutOfMemory };

    fn from(_error: AllocError) -> Error {
        Error::OutOfMemory
    }
}

impl<T: Drop> From<AllocFailed<T>> for Error {
    ghost from_gives = { λ _ e. e ≡ OutOfMemory };

    fn from(_failed: AllocFailed<T>) -> Error {
        Error::OutOfMemory
    }
}
