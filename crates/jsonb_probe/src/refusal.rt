//! Why the reply to a line is an error.

use hex::FromHexError;
use jsonb::Error;
use std::alloc::{AllocError, AllocFailed};

/// Why the reply to a line is `error` and a name.
#[derive(Clone, Copy)]
pub enum Refusal {
    /// The line does not have the form of a command.
    BadCommand,
    /// A word is not hexadecimal.
    BadHex,
    /// The bytes for a command on a checked document are not one.
    NoDocument,
    /// A call of the library returned this error.
    Call(Error),
}

impl Refusal {
    /// The word after `error`.
    pub fn name(&self) -> &'static str {
        match self {
            Refusal::BadCommand => "BadCommand",
            Refusal::BadHex => "BadHex",
            Refusal::NoDocument => "NoDocument",
            Refusal::Call(error) => error.name(),
        }
    }
}

impl From<Error> for Refusal {
    fn from(error: Error) -> Refusal {
        Refusal::Call(error)
    }
}

impl From<AllocError> for Refusal {
    fn from(_error: AllocError) -> Refusal {
        Refusal::Call(Error::OutOfMemory)
    }
}

impl<T: Drop> From<AllocFailed<T>> for Refusal {
    fn from(_failed: AllocFailed<T>) -> Refusal {
        Refusal::Call(Error::OutOfMemory)
    }
}

impl From<FromHexError> for Refusal {
    fn from(error: FromHexError) -> Refusal {
        match error {
            FromHexError::OutOfMemory => Refusal::Call(Error::OutOfMemory),
            _ => Refusal::BadHex,
        }
    }
}
