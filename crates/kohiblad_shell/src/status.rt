//! The status of the program.

ghost use Rattle.std.specs.Prelude.{◌≡◌};
ghost use Rattle.kohiblad_shell.specs.Words.{halt_status, run_status, summary_status};

use crate::halt::Halt;
use crate::run::Summary;

/// The status if a row gave a result, or no row is wrong where faults are searched for.
pub const FOUND: u8 = 0;

/// The status if no row gave a result, or a row is wrong.
pub const NOT_FOUND: u8 = 1;

/// The status after wrong use.
pub const MISUSE: u8 = 2;

/// The status if a device or memory failed, also at an input that was passed over.
pub const FAILURE: u8 = 3;

/// The status if nobody reads the output: what a shell says of a program that the signal of a
/// closed pipe ended.
pub const CLOSED: u8 = 141;

/// What a run searches for.
#[derive(Clone, Copy, Debug, PartialEq, Eq)]
pub enum Aim {
    /// Rows.
    Rows,
    /// Lines that are wrong.
    Faults,
}

/// The status of the program after a run.
pub fn run_status(aim: Aim, outcome: Result<Summary, Halt>) -> u8
    ensures { result ≡ run_status aim outcome }
{
    match outcome {
        Ok(summary) => summary_status(aim, summary),
        Err(halt) => halt_status(halt),
    }
}

// The status after a run that was not ended by a device.
fn summary_status(aim: Aim, summary: Summary) -> u8
    ensures { result ≡ summary_status aim summary }
{
    if summary.lacks_input {
        return FAILURE;
    }
    let is_missed = match aim {
        Aim::Rows => summary.rows == 0 || summary.is_stopped,
        Aim::Faults => summary.faults != 0,
    };
    if is_missed { NOT_FOUND } else { FOUND }
}

/// The status after a run that ended early.
pub fn halt_status(halt: Halt) -> u8
    ensures { result ≡ halt_status halt }
{
    match halt {
        Halt::Closed => CLOSED,
        _ => FAILURE,
    }
}
