//! Results as C receives them: statuses, and bytes copied into the caller's buffer.

ghost use Rattle.std.specs.Prelude.{◌≡◌, ◌+◌, ◌<◌, ◌^◌, IfErr, IfOk, length};
ghost use Rattle.kohiblad.specs.Words.{scalar_bytes, code, status_name, IsHandedOver, IsRefused};
ghost use Rattle.kohiblad.specs.Words.{IsAnswered, path_status_name, result_bytes};

use jsonb::{Error, OwnedJsonb};
use jsonb_codec::constants::SCALAR_CONTAINER_TAG;

/// The version number: a million per major, a thousand per minor and one per patch version.
const VERSION: u32 = 9000;

/// The status of success.
pub const OK: u32 = 0;

/// The status of a buffer that is too small for the result.
pub const NO_ROOM: u32 = 11;

/// The status of a value that does not exist.
pub const NONE: u32 = 12;

/// The status of a text, or of a row in a file, that nests deeper than the given depth.
pub const TOO_DEEP: u32 = 13;

/// The status of a value of another kind.
pub const OTHER_KIND: u32 = 14;

/// The status of a number that is not a whole number of 64 bits.
pub const PAST_RANGE: u32 = 15;

/// The status of a text that stops being JSON in an unfinished or too large number.
pub const BAD_NUMBER: u32 = 17;

/// The status of a call that took more steps than it may.
pub const TOO_MANY_STEPS: u32 = 18;

/// The status of bytes that do not begin as a file of typed columns.
pub const BAD_MAGIC: u32 = 19;

/// The status of a file of typed columns of another version of the format.
pub const UNKNOWN_VERSION: u32 = 20;

/// The status of bytes that go on after the end of a file.
pub const TRAILING_DATA: u32 = 21;

/// The status of a file in which a length does not fit the number of rows.
pub const WRONG_LENGTH: u32 = 22;

/// The status of a file whose contents are out of form.
pub const OUT_OF_FORM: u32 = 23;

/// The status of a file that did not give its rows back when it was read again.
pub const NOT_READ_BACK: u32 = 24;

/// The status of a member that a path of SQL/JSON does not find.
pub const MEMBER_NOT_FOUND: u32 = 25;

/// The status of a value whose members a path asks, and which is no object.
pub const OBJECT_NOT_FOUND: u32 = 26;

/// The status of a value whose items a path asks, and which is no array.
pub const ARRAY_NOT_FOUND: u32 = 27;

/// The status of a subscript of a path that is no index, or out of bounds.
pub const INVALID_SUBSCRIPT: u32 = 28;

/// The status of a value that a path rounds, and which is no number.
pub const NON_NUMERIC_ITEM: u32 = 29;

/// The status of an operand of a path that is not one number.
pub const SINGLETON_REQUIRED: u32 = 30;

/// The status of a value after a sign of a path that is no number.
pub const NUMBER_NOT_FOUND: u32 = 31;

/// The status of a remainder by zero in a path.
pub const DIVISION_BY_ZERO: u32 = 32;

/// The status of a number that a path computes, and which does not fit.
pub const OUT_OF_RANGE: u32 = 33;

/// The status of a variable of a path that is not given.
pub const UNDEFINED_VARIABLE: u32 = 34;

/// The status of a value that a path gives, and which is not one boolean or null.
pub const BOOLEAN_REQUIRED: u32 = 35;

/// The first length that the payload of a scalar may not have.
pub const PAYLOAD_LIMIT: usize = 1 << 28;

/// The version number of the library: a million per major, a thousand per minor and one per patch
/// version.
#[unsafe(no_mangle)]
pub extern "C" fn kohiblad_version() -> u32
    ensures { result ≡ 9000 }
{
    VERSION
}

/// Copies the name of a status, or `Unknown` for other numbers, to `out`.
#[unsafe(no_mangle)]
pub extern "C" fn kohiblad_status_name(status: u32, out: &mut [u8], length: &mut usize) -> u32
    ensures { IsHandedOver (status_name status) out.old out.new length.new result }
{
    let name = match status {
        0 => "Ok",
        1 => Error::InvalidEOF.name(),
        2 => Error::InvalidJsonb.name(),
        3 => Error::InvalidJsonbHeader.name(),
        4 => Error::InvalidJsonbJEntry.name(),
        5 => Error::InvalidJsonbNumber.name(),
        6 => Error::InvalidJsonbExtension.name(),
        7 => Error::InvalidUtf8.name(),
        8 => Error::ObjectDuplicateKey.name(),
        9 => Error::InvalidJson.name(),
        10 => Error::OutOfMemory.name(),
        11 => "NoRoom",
        12 => "None",
        13 => "TooDeep",
        14 => "OtherKind",
        15 => "PastRange",
        16 => "Overlap",
        17 => "BadNumber",
        18 => "TooManySteps",
        19 => "BadMagic",
        20 => "UnknownVersion",
        21 => "TrailingData",
        22 => "WrongLength",
        23 => "OutOfForm",
        24 => "NotReadBack",
        _ => path_status_name(status),
    };
    hand_over(name.as_bytes(), out, length)
}

// The name of a status by which a path is given up.
fn path_status_name(status: u32) -> &'static str
    ensures { result.now ≡ path_status_name status }
{
    match status {
        25 => "MemberNotFound",
        26 => "ObjectNotFound",
        27 => "ArrayNotFound",
        28 => "InvalidSubscript",
        29 => "NonNumericItem",
        30 => "SingletonRequired",
        31 => "NumberNotFound",
        32 => "DivisionByZero",
        33 => "OutOfRange",
        34 => "UndefinedVariable",
        35 => "BooleanRequired",
        _ => "Unknown",
    }
}

/// The status of an error, from 1 to 10.
pub fn code(error: Error) -> u32
    ensures { result ≡ code error }
{
    match error {
        Error::InvalidEOF => 1,
        Error::InvalidJsonb => 2,
        Error::InvalidJsonbHeader => 3,
        Error::InvalidJsonbJEntry => 4,
        Error::InvalidJsonbNumber => 5,
        Error::InvalidJsonbExtension => 6,
        Error::InvalidUtf8 => 7,
        Error::ObjectDuplicateKey => 8,
        Error::InvalidJson => 9,
        Error::OutOfMemory => 10,
    }
}

/// Copies the result to the start of `out` if it fits, and stores its length. `OK`, or `NO_ROOM` if
/// `out` is shorter than the result, and then unchanged.
pub fn hand_over<T: Copy>(answer: &[T], out: &mut [T], size: &mut usize) -> u32
    ensures { IsHandedOver answer.now out.old out.new size.new result }
{
    *size = answer.len();
    if out.len() < answer.len() {
        return NO_ROOM;
    }
    out[..answer.len()].copy_from_slice(answer);
    OK
}

/// Copies out the bytes that were made, as `hand_over` does, or returns the status of the error.
pub fn hand_over_made(made: Result<OwnedJsonb, Error>, out: &mut [u8], size: &mut usize) -> u32
    ensures { IsAnswered (result_bytes made) out.old out.new size.new result }
{
    match made {
        Ok(owned) => hand_over(owned.as_bytes(), out, size),
        Err(error) => refuse(code(error), out, size),
    }
}

/// Copies out the items that were made, as `hand_over` does, or returns the status of the error.
pub fn hand_over_items<T: Copy>(made: Result<Vec<T>, Error>, out: &mut [T], size: &mut usize) -> u32
    ensures ok { IfOk made (λ items. IsHandedOver items.items out.old out.new size.new result) }
    ensures err { IfErr made (λ e. IsRefused (code e) out.old out.new size.new result) }
{
    match made {
        Ok(items) => hand_over(&items, out, size),
        Err(error) => refuse(code(error), out, size),
    }
}

/// Returns this status, with the length 0, and writes nothing to `out`.
pub fn refuse<T>(status: u32, out: &mut [T], size: &mut usize) -> u32
    ensures { IsRefused status out.old out.new size.new result }
{
    *size = 0;
    status
}

/// Writes the document of a scalar with this payload to the start of `out` if it fits, and stores
/// its length in bytes. `OK`, or `NO_ROOM` if `out` is shorter than the document, and then
/// unchanged.
pub fn hand_over_scalar(type_code: u32, payload: &[u8], out: &mut [u8], size: &mut usize) -> u32
    requires { type_code + length payload.now < 2 ^ 31 }
    ensures { IsHandedOver (scalar_bytes type_code payload.now) out.old out.new size.new result }
{
    *size = 8 + payload.len();
    if out.len() < *size {
        return NO_ROOM;
    }
    let (front, later) = out.split_at_mut(8);
    let (header, entry) = front.split_at_mut(4);
    header.copy_from_slice(&SCALAR_CONTAINER_TAG.to_be_bytes());
    entry.copy_from_slice(&(type_code + payload.len() as u32).to_be_bytes());
    later[..payload.len()].copy_from_slice(payload);
    OK
}
