//! Temporary files.

use crate::messages::tell_failed;
use hex::encode;
use std::fs::{self, File, OpenOptions};
use std::io::{self, ErrorKind, Read, Write};
use std::os::unix::fs::OpenOptionsExt;
use std::random::RandomSource;

// How many names are tried before a file is given up.
const MAX_TRIES: usize = 100;

/// A new file in this folder, which has no name any more: it is gone when it is closed, also if the
/// program is stopped.
pub fn unnamed_file(rt: &HostRuntime, folder: &str) -> io::Result<File> {
    let (file, name) = new_file(rt, folder, "kohiblad")?;
    fs::remove_file(rt, name.as_str())?;
    Ok(file)
}

/// What reads or writes a temporary file in a folder. The first thing that cannot be done with it
/// is reported.
#[derive(Drop)]
pub struct TemporaryFile<'a> {
    rt: &'a HostRuntime,
    folder: &'a str,
    file: &'a File,
    is_told: bool,
}

impl<'a> TemporaryFile<'a> {
    /// What reads or writes this file, which lies in this folder.
    pub fn new(rt: &'a HostRuntime, folder: &'a str, file: &'a File) -> TemporaryFile<'a> {
        TemporaryFile {
            rt,
            folder,
            file,
            is_told: false,
        }
    }

    // Reports what could not be done.
    fn tell(&mut self, what: &str, error: &io::Error) {
        if !self.is_told && error.kind() != ErrorKind::Interrupted {
            self.is_told = true;
            tell_failed(self.rt, what, self.folder, error);
        }
    }
}

impl Read for TemporaryFile<'_> {
    fn read(&mut self, bytes: &mut [u8]) -> io::Result<usize> {
        let mut file = self.file;
        let count = file.read(bytes);
        if let Err(error) = &count {
            self.tell("cannot read a temporary file in", error);
        }
        count
    }
}

impl Write for TemporaryFile<'_> {
    fn write(&mut self, bytes: &[u8]) -> io::Result<usize> {
        let mut file = self.file;
        let count = file.write(bytes);
        if let Err(error) = &count {
            self.tell("cannot write a temporary file in", error);
        }
        count
    }

    fn flush(&mut self) -> io::Result<()> {
        Ok(())
    }
}

/// A new file in this folder, which its owner alone may open, and its name, which no file had: a
/// point, these words, 16 random digits and `.part`.
pub fn new_file(rt: &HostRuntime, folder: &str, words: &str) -> io::Result<(File, String)> {
    for _ in 0..MAX_TRIES {
        let name = new_name(rt, folder, words)?;
        let mut options = OpenOptions::new();
        options.read(true).write(true).create_new(true).mode(0o600);
        match options.open(rt, name.as_str()) {
            Ok(file) => return Ok((file, name)),
            Err(error) if error.kind() == ErrorKind::AlreadyExists => {}
            Err(error) => return Err(error),
        }
    }
    Err(io::Error::from(ErrorKind::AlreadyExists))
}

// A name that hardly any file has.
fn new_name(rt: &HostRuntime, folder: &str, words: &str) -> io::Result<String> {
    let mut bytes = [0; 8];
    rt.fill_bytes(&mut bytes)?;
    let alloc = rt.alloc();
    let number = encode(alloc, bytes.as_slice())?;
    let slash = if folder.is_empty() || folder.ends_with('/') {
        ""
    } else {
        "/"
    };
    Ok(format!(in alloc; "{folder}{slash}.{words}.{number}.part")?)
}
