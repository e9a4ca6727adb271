//! Where the rows of a command go: standard output, or a file that is there when it is whole.

ghost use Rattle.std.specs.Prelude.{◌≡◌, ◌≤◌, IfOk, string_len};

use crate::halt::{Halt, halt_of_write};
use crate::messages::tell_failed;
use crate::mode::mode_for;
use crate::same_file::expect_other_file;
use crate::status::FAILURE;
use crate::temporary::new_file;
use std::alloc::{AllocError, Global};
use std::fs::{self, File, OpenOptions};
use std::io::{self, ErrorKind, Write};

// How many links are followed before a file is given up, as Linux does.
const MAX_LINKS: usize = 40;

// What the system says of more links: its number of ELOOP.
const TOO_MANY_LINKS: i32 = 40;

// How long the name of a new file may be in any folder.
const USUAL_LEN: usize = 64;

// How many bytes a new file's name has beside those of the name whose place it takes.
const PART_LEN: usize = 23;

/// Where the rows of a command go.
#[derive(Drop)]
pub enum Output<'a> {
    /// Standard output.
    Standard(StandardOutput<'a>),
    /// A device or a pipe, which is written as it is.
    Device(File),
    /// A file beside the one whose place it takes.
    Part(Part<'a>),
}

/// Standard output, and whether it was reported that it cannot be written.
#[derive(Drop)]
pub struct StandardOutput<'a> {
    rt: &'a HostRuntime,
    is_told: bool,
}

/// A file that takes the place of another once it is whole, and whether it was reported that it
/// cannot be written.
#[derive(Drop)]
pub struct Part<'a> {
    rt: &'a HostRuntime,
    file: File,
    name: String,
    target: String,
    is_told: bool,
}

impl Write for Output<'_> {
    fn write(&mut self, bytes: &[u8]) -> io::Result<usize> {
        match self {
            Output::Standard(standard) => {
                let written = io::writer(standard.rt).write(bytes);
                reported(
                    standard.rt,
                    "standard output",
                    written,
                    &mut standard.is_told,
                )
            }
            Output::Device(file) => file.write(bytes),
            Output::Part(part) => {
                let written = part.file.write(bytes);
                reported(part.rt, part.target.as_str(), written, &mut part.is_told)
            }
        }
    }

    fn flush(&mut self) -> io::Result<()> {
        Ok(())
    }
}

impl<'a> Output<'a> {
    /// The file of this name, or standard output if it is `-`, for rows that are made of those of
    /// these inputs. One that cannot be written, or is one of the inputs, is reported, and the
    /// status is returned.
    pub fn open(rt: &'a HostRuntime, name: &str, inputs: &[&str]) -> Result<Output<'a>, u8> {
        expect_other_file(rt, name, inputs)?;
        if name == "-" {
            return Ok(Output::Standard(StandardOutput { rt, is_told: false }));
        }
        match open_target(rt, name) {
            Ok(output) => Ok(output),
            Err(error) => {
                tell_failed(rt, "cannot write", name, &error);
                Err(FAILURE)
            }
        }
    }

    /// Ends the output: a whole one takes the place of the file of its name, and another one is
    /// removed.
    pub fn close(self, is_whole: bool) -> Result<(), Halt> {
        let Output::Part(part) = self else {
            return Ok(());
        };
        if !is_whole {
            let _ = fs::remove_file(part.rt, part.name.as_str());
            return Ok(());
        }
        match part.take_place() {
            Ok(()) => Ok(()),
            Err(error) => {
                tell_failed(part.rt, "cannot write", part.target.as_str(), &error);
                Err(Halt::Write)
            }
        }
    }
}

impl Part<'_> {
    // Puts the whole file into the place of the other; one that cannot take it is removed.
    fn take_place(&self) -> io::Result<()> {
        if let Err(error) = self.replace() {
            let _ = fs::remove_file(self.rt, self.name.as_str());
            return Err(error);
        }
        self.sync_folder()
    }

    // Gives the file the mode of the one that it replaces, has all of it on the device, and then
    // puts it into the other's place.
    fn replace(&self) -> io::Result<()> {
        let target = self.target.as_str();
        self.file.set_permissions(mode_for(self.rt, target)?)?;
        self.file.sync_all()?;
        fs::rename(self.rt, self.name.as_str(), target)
    }

    // Has the names of the folder on the device, unless the folder may not be read.
    fn sync_folder(&self) -> io::Result<()> {
        let (folder, _) = split_name(self.target.as_str());
        let folder = if folder.is_empty() { "." } else { folder };
        match File::open(self.rt, folder) {
            Ok(folder) => folder.sync_all(),
            Err(error) if error.kind() == ErrorKind::PermissionDenied => Ok(()),
            Err(error) => Err(error),
        }
    }
}

// What came of a write to a file of this name. Why it failed is reported once, unless nobody reads
// the output any more.
fn reported(
    rt: &HostRuntime,
    name: &str,
    written: io::Result<usize>,
    is_told: &mut bool,
) -> io::Result<usize>
    ensures { result ≡ written }
{
    if let Err(error) = &written {
        if !*is_told && error.kind() != ErrorKind::BrokenPipe {
            *is_told = true;
            tell_failed(rt, "cannot write", name, error);
        }
    }
    written
}

// The file of this name: a new one beside it, or itself if it is no file.
fn open_target<'a>(rt: &'a HostRuntime, name: &str) -> io::Result<Output<'a>> {
    let Ok(metadata) = fs::metadata(rt, name) else {
        return open_part(rt, followed(rt, name)?);
    };
    if !metadata.is_file() {
        let file = OpenOptions::new().write(true).open(rt, name)?;
        return Ok(Output::Device(file));
    }
    let target = fs::canonicalize(rt, name)?;
    open_part(rt, String::from_str(rt.alloc(), target.as_str())?)
}

// The name to which a link leads at which there is no file yet, or the name itself if it is no
// link.
fn followed(rt: &HostRuntime, name: &str) -> io::Result<String> {
    let alloc = rt.alloc();
    let mut path = String::from_str(alloc, name)?;
    for _ in 0..MAX_LINKS {
        match fs::read_link(rt, path.as_str()) {
            Ok(link) => path = linked(alloc, path.as_str(), link.as_str())?,
            Err(error) if is_no_link(error.kind()) => return Ok(path),
            Err(error) => return Err(error),
        }
    }
    Err(io::Error::from_raw_os_error(TOO_MANY_LINKS))
}

// Whether a link could not be read because there is none.
fn is_no_link(kind: ErrorKind) -> bool {
    kind == ErrorKind::NotFound || kind == ErrorKind::InvalidInput
}

// What the text of a link names.
fn linked(alloc: Global, name: &str, link: &str) -> Result<String, AllocError> {
    let (folder, _) = split_name(name);
    if folder.is_empty() || link.starts_with('/') {
        return String::from_str(alloc, link);
    }
    format!(in alloc; "{folder}/{link}")
}

// A new file in the folder of another, whose place it takes.
fn open_part<'a>(rt: &'a HostRuntime, target: String) -> io::Result<Output<'a>> {
    let (file, name) = new_file_beside(rt, target.as_str())?;
    Ok(Output::Part(Part {
        rt,
        file,
        name,
        target,
        is_told: false,
    }))
}

// A new file in the folder of another, and its name, which is no longer than the other's or the
// usual.
fn new_file_beside(rt: &HostRuntime, target: &str) -> io::Result<(File, String)> {
    let (folder, last) = split_name(target);
    let most = last.len().max(USUAL_LEN).saturating_sub(PART_LEN);
    let words = beginning(rt.alloc(), last, most)?;
    new_file(rt, folder, words.as_str())
}

// The characters with which a name begins, so many that they have at most so many bytes.
fn beginning(alloc: Global, name: &str, most: usize) -> Result<String, AllocError>
    ensures { IfOk result (λ words. string_len words ≤ most) }
{
    let mut words = String::new(alloc);
    for character in name.chars() {
        if character.len_utf8() > most - words.len() {
            return Ok(words);
        }
        words.push(character)?;
    }
    Ok(words)
}

// The folder of a file, which is empty if none is named, and the file's name in it.
fn split_name(name: &str) -> (&str, &str) {
    match name.rsplit_once('/') {
        Some((folder, last)) if folder.is_empty() => ("/", last),
        Some((folder, last)) => (folder, last),
        None => ("", name),
    }
}
