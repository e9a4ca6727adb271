//! The mode of a file that takes the place of another.

use std::fs::{self, Permissions};
use std::io::{self, ErrorKind};
use std::os::unix::fs::PermissionsExt;

// What new files may have, but for what the process takes from them.
const USUAL: u32 = 0o666;

// What others than its owner may do with a file.
const OF_OTHERS: u32 = 0o077;

/// The mode of the file of this name, or that of any new file if there is none.
pub fn mode_for(rt: &HostRuntime, name: &str) -> io::Result<Permissions> {
    match fs::metadata(rt, name) {
        Ok(metadata) => Ok(metadata.permissions()),
        Err(error) if error.kind() == ErrorKind::NotFound => {
            Ok(Permissions::from_mode(USUAL & !umask(rt)))
        }
        Err(error) => Err(error),
    }
}

// What the process takes from new files, as the system tells it; if it does not, new files are
// their owner's alone.
fn umask(rt: &HostRuntime) -> u32 {
    match fs::read_to_string(rt, "/proc/self/status") {
        Ok(status) => umask_in(status.as_str()).unwrap_or(OF_OTHERS),
        Err(_) => OF_OTHERS,
    }
}

// The number after `Umask:`.
fn umask_in(status: &str) -> Option<u32> {
    for line in status.lines() {
        if let Some(digits) = line.strip_prefix("Umask:") {
            return u32::from_str_radix(digits.trim(), 8).ok();
        }
    }
    None
}
