//! What is wrong with the bytes of a chunk.

ghost use Rattle.std.specs.Prelude.{◌≡◌};
ghost use Rattle.typed_chunk.specs.declared.fault.ReadError.TheVariants.{OutOfMemory, Refused};

use std::alloc::AllocError;

/// Why bytes are no chunk.
#[derive(Clone, Copy, Debug, PartialEq, Eq)]
pub enum ChunkFault {
    /// There are fewer or more bytes than the values take.
    WrongLength,
    /// A width is not one of those that codes may have.
    NoSuchWidth,
    /// A bit past the last code is set.
    BitsPastEnd,
    /// A width is not the least that holds all codes.
    NotLeastWidth,
    /// No value is the one that is said to be the least.
    NotLeastValue,
    /// The least value and the greatest code make a number of too many bits.
    ValueOutOfRange,
    /// The first byte does not say which rows have a value.
    NoSuchFlags,
    /// Bits that are to say which rows have a value say that none or all have one.
    NotSomeFlags,
    /// A row that has no text has bytes.
    TextOfNoValue,
    /// All texts begin alike with more bytes than they are said to.
    NotLongestBeginning,
    /// An entry is not greater by its bytes than the one before it.
    EntriesNotAscending,
    /// There are no more entries than a place says.
    NoSuchEntry,
    /// A row that has no text has another place than 0.
    PlaceOfNoValue,
    /// An entry is that of no row that has a text.
    EntryOfNoRow,
    /// The first byte behind the flags is none of a kind that the rows may have.
    NoSuchKind,
    /// A row that has no number has another one than the least of the others.
    NumberOfNoValue,
    /// The values take fewer bytes by another kind, or as many by an earlier one.
    NotShortestKind,
}

/// Why a chunk is not read.
#[derive(Clone, Copy, Debug, PartialEq, Eq)]
pub enum ReadError {
    /// The bytes are no chunk.
    Refused(ChunkFault),
    /// Memory is refused.
    OutOfMemory,
}

impl From<ChunkFault> for ReadError {
    ghost from_gives = { λ fault error. error ≡ Refused fault };

    fn from(fault: ChunkFault) -> ReadError {
        ReadError::Refused(fault)
    }
}

impl From<AllocError> for ReadError {
    ghost from_gives = { λ _ error. error ≡ OutOfMemory };

    fn from(_error: AllocError) -> ReadError {
        ReadError::OutOfMemory
    }
}
