//! `vol_fetch`: a cutout of a volume that a server of byte ranges holds, over HTTP.
#![tactic(auto)]

mod fetch;
mod known;
mod limits;
mod tcp;
#[cfg(test)]
mod tests;
mod words;

use command_base::{Status, tell};
use fetch::fetch;
use pipes::{HostPipe, PipeOutlet};
use std::env::Env;
use std::io::ErrorKind;
use std::process::ExitCode;
use std::{env, io};
use tcp::TcpDial;

// The words after the program's name. It fails as a whole where the system doesn't give each of them as
// text, or where there is no memory for them.
fn read_arguments<R: Env + AllocGlobal>(rt: &R) -> io::Result<Vec<String>> {
    let words = env::args(rt)?.skip(1).collect(rt.alloc())?;
    Ok(words)
}

/// Fetches the box that the arguments spell, and ends with the number of its status. Arguments that aren't text are no
/// words.
fn main(rt: HostRuntime) -> ExitCode {
    let mut err = PipeOutlet::new(HostPipe::new(rt.stderr()));
    let words = match read_arguments(&rt) {
        Ok(words) => words,
        Err(error) if error.kind() == ErrorKind::OutOfMemory => {
            tell(&mut err, Status::NoMemory);
            return ExitCode::from(Status::NoMemory);
        }
        Err(_) => Vec::new(rt.alloc()),
    };
    let mut out = PipeOutlet::new(HostPipe::new(rt.stdout()));
    let (status, _store) = fetch(rt.alloc(), &words, TcpDial::new(rt), &mut out, &mut err);
    ExitCode::from(status)
}
