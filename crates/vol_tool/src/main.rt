//! `vol_tool`: a store for the volumes that Neuroglancer views, over the current directory and the standard
//! streams.
#![tactic(auto)]

#[cfg(test)]
mod tests;
mod top;

use command_base::{Status, tell};
use folder_store::{DirStore, HostFolder};
use pipes::{HostPipe, PipeFeed, PipeOutlet};
use std::env::Env;
use std::io::ErrorKind;
use std::process::ExitCode;
use std::{env, io};
use top::run;
use vol_base::FreeGate;
use vol_shell::TcpDoor;

// The words after the program's name. It fails as a whole where the system doesn't give each of them as
// text, or where there is no memory for them.
fn read_arguments<R: Env + AllocGlobal>(rt: &R) -> io::Result<Vec<String>> {
    let words = env::args(rt)?.skip(1).collect(rt.alloc())?;
    Ok(words)
}

/// Runs the command that the arguments spell, and ends with the number of its status. Arguments that
/// aren't text are no words.
fn main(rt: HostRuntime) -> ExitCode {
    let mut err = PipeOutlet::new(HostPipe::new(rt.stderr()));
    let words = match read_arguments(&rt) {
        Ok(words) => words,
        Err(error) if error.kind() == ErrorKind::OutOfMemory => {
            tell(&mut err, Status::NoMemory);
            return ExitCode::from(Status::NoMemory);
        }
        Err(_) => Vec::new(rt.alloc()),
    };
    let status = run(
        &rt,
        rt.alloc(),
        &words,
        &mut DirStore::new(HostFolder::new(rt), rt.alloc()),
        &mut PipeFeed::new(HostPipe::new(rt.stdin()), rt.alloc()),
        &mut PipeOutlet::new(HostPipe::new(rt.stdout())),
        &mut err,
        &mut TcpDoor::new(rt),
        &FreeGate,
    );
    ExitCode::from(status)
}
