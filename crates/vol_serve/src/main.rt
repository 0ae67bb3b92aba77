//! `vol_serve`: the files of a volume by byte ranges over plain HTTP, to several peers at once.
#![tactic(auto)]

ghost use Rattle.std.specs.Prelude.{◌≡◌, IfOk, length};

mod announce;
mod status;
#[cfg(test)]
mod tests;
mod top;
mod words;

use command_base::{Status, tell};
use folder_store::{DirStore, HostFolder};
use hall::{Doorway, PlainExit};
use pipes::{HostPipe, PipeOutlet};
use std::alloc::{AllocError, Global};
use std::env::Env;
use std::io::ErrorKind;
use std::process::ExitCode;
use std::time::Duration;
use std::{env, io};
use top::serve_all;
use vol_base::FreeGate;
use vol_shell::TcpDoor;

// The words after the program's name. It fails as a whole where the system doesn't give each of them as
// text, or where there is no memory for them.
fn read_arguments<R: Env + AllocGlobal>(rt: &R) -> io::Result<Vec<String>> {
    let words = env::args(rt)?.skip(1).collect(rt.alloc())?;
    Ok(words)
}

// The objects below the current directory.
type HostStore = DirStore<HostFolder<HostRuntime>>;

// A store for each worker that there may be.
fn open_stores(rt: HostRuntime, alloc: Global) -> Result<Vec<HostStore>, AllocError>
    ensures { IfOk result (λ stores. length stores.items ≡ 16) }
{
    let mut stores = Vec::new(alloc);
    for _i in 0..16u32 {
        stores.push(DirStore::new(HostFolder::new(rt), alloc))?;
    }
    Ok(stores)
}

/// Serves what the arguments spell, and ends with the number of its status. Arguments that aren't text are no words.
fn main(rt: HostRuntime) -> ExitCode {
    let mut err = PipeOutlet::new(HostPipe::new(rt.stderr()));
    let words = match read_arguments(&rt) {
        Ok(words) => words,
        Err(error) if error.kind() == ErrorKind::OutOfMemory => {
            tell(&mut err, Status::NoMemory);
            return ExitCode::from(Status::NoMemory);
        }
        Err(_) => Vec::new(rt.alloc()),
    };
    let Ok(stores) = open_stores(rt, rt.alloc()) else {
        tell(&mut err, Status::NoMemory);
        return ExitCode::from(Status::NoMemory);
    };
    let closing = serve_all(
        &rt,
        rt.alloc(),
        &words,
        Doorway::new(TcpDoor::with_pause(rt, Duration::from_secs(5), Duration::from_secs(600))),
        PlainExit,
        stores,
        &mut PipeOutlet::new(HostPipe::new(rt.stdout())),
        &mut err,
        &FreeGate,
    );
    ExitCode::from(closing.status.status())
}
