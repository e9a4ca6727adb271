//! Whether what a command writes to is one of the files that it reads, by any name.

use crate::messages::tell;
use crate::status::MISUSE;
use std::fs;
use std::os::unix::fs::{FileTypeExt, MetadataExt};

// What all names of one file or device have in common.
#[derive(Clone, Copy, Debug, PartialEq, Eq)]
enum Place {
    // A file on a device.
    File { device: u64, number: u64 },
    // A device of blocks.
    Blocks(u64),
    // A device of characters.
    Characters(u64),
}

/// Refuses an output that is one of these inputs, by name, by link or as a device, and returns the
/// status after the report. `-` is standard output, or as an input standard input, and so are no
/// inputs. No file is opened.
pub fn expect_other_file(rt: &HostRuntime, output: &str, inputs: &[&str]) -> Result<(), u8> {
    let place = if output == "-" {
        stream_place(rt, "/proc/self/fd/1")
    } else {
        place_of(rt, output)
    };
    if place.is_none() || !is_read(rt, place, inputs) {
        return Ok(());
    }
    let name = if output == "-" {
        "standard output"
    } else {
        output
    };
    let what = "is the input: write to another file";
    tell(rt, format!(in rt.alloc(); "{name} {what}"));
    Err(MISUSE)
}

// Whether one of these inputs is in this place.
fn is_read(rt: &HostRuntime, place: Option<Place>, inputs: &[&str]) -> bool {
    if inputs.is_empty() {
        return stream_place(rt, "/proc/self/fd/0") == place;
    }
    for input in inputs {
        let input_place = if *input == "-" {
            stream_place(rt, "/proc/self/fd/0")
        } else {
            place_of(rt, *input)
        };
        if input_place == place {
            return true;
        }
    }
    false
}

// The place of a file, which need not be there. The null device has none: any number may share it.
fn place_of(rt: &HostRuntime, name: &str) -> Option<Place> {
    let Ok(metadata) = fs::metadata(rt, name) else {
        return None;
    };
    let kind = metadata.file_type();
    if kind.is_block_device() {
        return Some(Place::Blocks(metadata.rdev()));
    }
    if kind.is_char_device() {
        return if is_null_device(rt, metadata.rdev()) {
            None
        } else {
            Some(Place::Characters(metadata.rdev()))
        };
    }
    Some(Place::File {
        device: metadata.dev(),
        number: metadata.ino(),
    })
}

// The place of a stream, by the name that the system has for it. Terminals, pipes and sockets have
// none, since any number may share these.
fn stream_place(rt: &HostRuntime, name: &str) -> Option<Place> {
    match fs::metadata(rt, name) {
        Ok(metadata) if metadata.is_file() || metadata.file_type().is_block_device() => {
            place_of(rt, name)
        }
        _ => None,
    }
}

// Whether a device of characters is the null device.
fn is_null_device(rt: &HostRuntime, number: u64) -> bool {
    match fs::metadata(rt, "/dev/null") {
        Ok(metadata) => metadata.rdev() == number,
        Err(_) => false,
    }
}
