//! Why a run ended early.

ghost use Rattle.std.specs.Prelude.{◌≡◌};
ghost use Rattle.kohiblad_shell.specs.Words.{Memory, error_kind, halt_of_read, halt_of_write};
ghost use Rattle.kohiblad_shell.specs.Words.{halt_of_fault, halt_reason};

use array_items::ReadFault;
use std::alloc::AllocError;
use std::io;

/// Why a run ended early.
#[derive(Clone, Copy, Debug, PartialEq, Eq)]
pub enum Halt {
    /// The reader failed, or never reached the end of its input.
    Read,
    /// A writer failed, or accepted no byte.
    Write,
    /// The reader of what a writer writes is gone, as after `head`.
    Closed,
    /// An allocation failed.
    Memory,
}

impl Halt {
    /// What failed, in words.
    pub fn reason(self) -> &'static str
        ensures { result.now ≡ halt_reason self }
    {
        match self {
            Halt::Read => "read failed",
            Halt::Write => "write failed",
            Halt::Closed => "output closed",
            Halt::Memory => "out of memory",
        }
    }
}

impl From<AllocError> for Halt {
    ghost from_gives = { λ _ halt. halt ≡ Memory };

    fn from(_error: AllocError) -> Halt {
        Halt::Memory
    }
}

impl From<ReadFault> for Halt {
    ghost from_gives = { λ fault halt. halt ≡ halt_of_fault fault };

    fn from(fault: ReadFault) -> Halt {
        match fault {
            ReadFault::Reader => Halt::Read,
            ReadFault::Memory => Halt::Memory,
        }
    }
}

/// Why a run ends after this error of a reader.
pub fn halt_of_read(error: &io::Error) -> Halt
    ensures { result ≡ halt_of_read (error_kind error.now) }
{
    match error.kind() {
        io::ErrorKind::OutOfMemory => Halt::Memory,
        _ => Halt::Read,
    }
}

/// Why a run ends after this error of a writer.
pub fn halt_of_write(error: &io::Error) -> Halt
    ensures { result ≡ halt_of_write (error_kind error.now) }
{
    match error.kind() {
        io::ErrorKind::BrokenPipe => Halt::Closed,
        _ => Halt::Write,
    }
}
