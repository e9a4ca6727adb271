//! Answers lines with commands on binary JSON documents, from standard input to standard output.
#![tactic(auto)]

mod answer;
mod calls;
mod command;
mod laws;
mod run;
#[cfg(test)]
mod tests;
mod words;

use std::io;
use std::process::ExitCode;

fn main(rt: HostRuntime) -> ExitCode {
    match run::run(rt.alloc(), &mut rt.reader(), &mut io::writer(&rt)) {
        Ok(()) => ExitCode::SUCCESS,
        Err(error) => {
            // If standard error accepts no line either, only the exit status reports the fault.
            let _ = eprintln!(rt; "{}", error.line());
            ExitCode::FAILURE
        }
    }
}
