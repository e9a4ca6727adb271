//! Calls the library line by line: each line of standard input names a call and its bytes, and is
//! answered by one line on standard output.
#![tactic(auto)]

mod arguments;
mod builders;
mod command;
mod comparable;
mod documents;
mod items;
mod line;
mod lookup;
mod order;
mod payloads;
mod refusal;
mod single;
mod texts;
mod walks;
mod words;

use answer_lines::{Request, request_of};
use arguments::{USAGE, VERSION};
use command::answer;
use std::io::{BufRead, BufReader};
use std::process::ExitCode;
use std::{env, io};

// The status of a command line that is refused.
const USAGE_STATUS: u8 = 2;

fn main(rt: HostRuntime) -> io::Result<ExitCode> {
    match requested(&rt)? {
        Request::Run => answer_all(&rt)?,
        Request::Help => print!(rt; "{USAGE}")?,
        Request::Version => print!(rt; "{VERSION}")?,
        Request::Unknown => {
            eprintln!(rt; "jsonb_probe: unknown argument; try --help")?;
            return Ok(ExitCode::from(USAGE_STATUS));
        }
    }
    Ok(ExitCode::SUCCESS)
}

// What the arguments ask for. One that is not UTF-8 is unknown.
fn requested(rt: &HostRuntime) -> io::Result<Request> {
    match env::args(rt) {
        Ok(mut arguments) => {
            let _program = arguments.next();
            Ok(request_of(arguments.next(), arguments.next()))
        }
        Err(error) if error.kind() == io::ErrorKind::OutOfMemory => Err(error),
        Err(_) => Ok(Request::Unknown),
    }
}

// Answers each line of standard input.
fn answer_all(rt: &HostRuntime) -> io::Result<()> {
    let alloc = rt.alloc();
    for line in BufReader::new(alloc, rt.reader())?.split(alloc, b'\n') {
        match answer(alloc, &line?) {
            Ok(text) => println!(rt; "{text}")?,
            Err(refusal) => println!(rt; "error {}", refusal.name())?,
        }
    }
    Ok(())
}
