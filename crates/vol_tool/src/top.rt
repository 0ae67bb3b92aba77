//! The top call.
ghost use Rattle.std.specs.Prelude.{◌≡◌, None, Some, map, string_bytes};
ghost use Rattle.std.specs.Option.{option_map};
ghost use Rattle.command_line.specs.Words.{KeepsLimits, line};
ghost use Rattle.folder_store.specs.Disks.{objects_at, objects_of};
ghost use Rattle.folder_store.specs.Power.{Survives};
ghost use Rattle.vol_tool.specs.Runs.{Answers, Causes, Headline, Keeps, Killed, Succeeds};
ghost use Rattle.vol_tool.specs.Seen.{Seen, view};

use command_base::{Crew, Status, tell};
use command_line::{Command, read_words};
use cutout_cmd::run_cutout;
use downsample_cmd::run_downsample;
use folder_store::{DirStore, Folder};
use generate_cmd::run_generate;
use reshard_cmd::run_reshard;
use serve_cmd::run_serve;
use std::alloc::Global;
use std::sync::Wait;
use std::thread::Threads;
use update_cmd::run_update;
use verify_cmd::run_verify;
use vol_base::{Door, Feed, Gate, Outlet, Store};
use write_cmd::run_write;

/// A name for the outside as a whole.
pub struct Outside;

/// What is seen of a store, a feed, an output, an error output and a door.
pub trait Viewed<S, F, O, E, D> {
    ghost at: { S → F → O → E → D → Seen };
}

impl<S: Store, F: Feed, O: Outlet, E: Outlet, D: Door> Viewed<S, F, O, E, D> for Outside {
    ghost at = { view S.objects S.draft S.asked S.faults F.left F.faults O.written O.faults E.written E.faults
        D.bound D.accepted D.served D.faults };
}

/// A name for the outside with the files of a folder for its store.
pub struct OutsideFiles;

impl<L: Folder, F: Feed, O: Outlet, E: Outlet, D: Door> Viewed<L, F, O, E, D> for OutsideFiles {
    ghost at = { view (λ folder. option_map objects_of (L.disk folder)) (λ _. None) (λ _. 0) (λ _. 0)
        F.left F.faults O.written O.faults E.written E.faults D.bound D.accepted D.served D.faults };
}

// Runs a command.
fn run_command<R, S: Store, F: Feed, O: Outlet, E: Outlet, D: Door, G: Gate + Sync>(
    rt: &R,
    alloc: Global,
    command: Command,
    store: &mut S,
    feed: &mut F,
    out: &mut O,
    err: &mut E,
    door: &mut D,
    gate: &G,
) -> Status
where
    R: Threads + Wait + Sync,
    requires unbound { D.bound door.old ≡ None }
    requires limits { KeepsLimits (Some command) }
    ensures answers { let at = ⟦<Outside as Viewed<S, F, O, E, D>>⟧.at in
        Answers (Some command) result
        (at store.old feed.old out.old err.old door.old)
        (at store.new feed.new out.new err.new door.new) }
    ensures succeeds { let at = ⟦<Outside as Viewed<S, F, O, E, D>>⟧.at in
        Succeeds (Some command) result
        (at store.old feed.old out.old err.old door.old)
        (at store.new feed.new out.new err.new door.new) }
    ensures headline { let at = ⟦<Outside as Viewed<S, F, O, E, D>>⟧.at in
        Headline (Some command) result
        (at store.old feed.old out.old err.old door.old)
        (at store.new feed.new out.new err.new door.new) }
    ensures killed { let at = ⟦<Outside as Viewed<S, F, O, E, D>>⟧.at in
        Killed (Some command) (at store.old feed.old out.old err.old door.old) (S.history store.old)
        (S.history store.new) }
    ensures keeps { let at = ⟦<Outside as Viewed<S, F, O, E, D>>⟧.at in
        Keeps (Some command) result (out.new ≡ out.old)
        (at store.old feed.old out.old err.old door.old)
        (at store.new feed.new out.new err.new door.new) }
    ensures causes { let at = ⟦<Outside as Viewed<S, F, O, E, D>>⟧.at in
        Causes (Some command) result
        (at store.old feed.old out.old err.old door.old).faults
        (at store.new feed.new out.new err.new door.new).faults }
{
    match command {
        Command::Cutout { dataset, key, part } => {
            run_cutout(alloc, store, out, err, &dataset, &key, &part)
        }
        Command::Write {
            dataset,
            key,
            workers,
        } => {
            let crew = Crew::of(rt, alloc, workers, gate);
            run_write(&crew, store, feed, out, err, &dataset, &key)
        }
        Command::Update {
            dataset,
            key,
            workers,
        } => {
            let crew = Crew::of(rt, alloc, workers, gate);
            run_update(&crew, store, feed, out, err, &dataset, &key)
        }
        Command::Generate {
            dataset,
            key,
            number,
            writes,
            workers,
        } => {
            let crew = Crew::of(rt, alloc, workers, gate);
            run_generate(&crew, store, out, err, &dataset, &key, number, writes)
        }
        Command::Reshard {
            dataset,
            key,
            to_dataset,
            to_key,
            workers,
        } => {
            let crew = Crew::of(rt, alloc, workers, gate);
            run_reshard(&crew, store, out, err, &dataset, &key, &to_dataset, &to_key)
        }
        Command::Downsample {
            dataset,
            key,
            to_key,
            method,
            workers,
        } => {
            let crew = Crew::of(rt, alloc, workers, gate);
            run_downsample(&crew, store, out, err, &dataset, &key, &to_key, method)
        }
        Command::Verify { dataset, key, part } => {
            run_verify(alloc, store, out, err, &dataset, &key, &part)
        }
        Command::Serve {
            dataset,
            port,
            connections,
        } => run_serve(alloc, store, out, err, door, &dataset, port, connections),
    }
}

/// Runs the command that the words spell (those after the program's name) over a store, a feed, an output, an
/// error output and a door. `rt` is for the workers of commands that write, and they call `gate`.
pub fn run<R, S: Store, F: Feed, O: Outlet, E: Outlet, D: Door, G: Gate + Sync>(
    rt: &R,
    alloc: Global,
    words: &[String],
    store: &mut S,
    feed: &mut F,
    out: &mut O,
    err: &mut E,
    door: &mut D,
    gate: &G,
) -> Status
where
    R: Threads + Wait + Sync,
    requires { D.bound door.old ≡ None }
    // What is answered over the objects and the feed, where they are told, and what the two outlets gained.
    ensures answers { let at = ⟦<Outside as Viewed<S, F, O, E, D>>⟧.at in
        Answers (line (map string_bytes words.now)) result
        (at store.old feed.old out.old err.old door.old)
        (at store.new feed.new out.new err.new door.new) }
    // Where nothing stands against a command and nothing that it uses fails, it succeeds or wants memory.
    ensures succeeds { let at = ⟦<Outside as Viewed<S, F, O, E, D>>⟧.at in
        Succeeds (line (map string_bytes words.now)) result
        (at store.old feed.old out.old err.old door.old)
        (at store.new feed.new out.new err.new door.new) }
    // After a write each box inside the scale reads back: the last write at each voxel and channel.
    // After an update it does so where it had no fault: the last write, else what was there.
    // After a copy each box inside the target reads as the source did.
    // After a reduction it reads as the source's values, reduced.
    ensures headline { let at = ⟦<Outside as Viewed<S, F, O, E, D>>⟧.at in
        Headline (line (map string_bytes words.now)) result
        (at store.old feed.old out.old err.old door.old)
        (at store.new feed.new out.new err.new door.new) }
    // What a kill leaves: at each moment the objects were those from before, with a front of the command's list put.
    ensures killed { let at = ⟦<Outside as Viewed<S, F, O, E, D>>⟧.at in
        Killed (line (map string_bytes words.now)) (at store.old feed.old out.old err.old door.old)
        (S.history store.old) (S.history store.new) }
    // What stays of the store, the feed, the output and the door, and how much is asked of the first two.
    ensures keeps { let at = ⟦<Outside as Viewed<S, F, O, E, D>>⟧.at in
        Keeps (line (map string_bytes words.now)) result (out.new ≡ out.old)
        (at store.old feed.old out.old err.old door.old)
        (at store.new feed.new out.new err.new door.new) }
    // Why a command failed.
    ensures causes { let at = ⟦<Outside as Viewed<S, F, O, E, D>>⟧.at in
        Causes (line (map string_bytes words.now)) result
        (at store.old feed.old out.old err.old door.old).faults
        (at store.new feed.new out.new err.new door.new).faults }
{
    match read_words(alloc, words) {
        Err(_) => {
            tell(err, Status::NoMemory);
            Status::NoMemory
        }
        Ok(None) => {
            tell(err, Status::Usage);
            Status::Usage
        }
        Ok(Some(command)) => run_command(rt, alloc, command, store, feed, out, err, door, gate),
    }
}

/// Runs a command over the files of a folder, as the calls of the system see and change them, and hands the folder
/// back: the headline of `run`, and what a kill leaves, said of the folder's files where it tells them; and of each object
/// that the disk had at some moment a loss of power leaves the whole, as it was then or later. The program itself calls
/// `run` over such a store. **So it is a theorem on real files, for whoever believes that the system's calls do what
/// `Folder` says of them, and that `HostFolder` makes them.**
pub fn run_in<R, L: Folder + Drop, F: Feed, O: Outlet, E: Outlet, D: Door, G: Gate + Sync>(
    rt: &R,
    alloc: Global,
    words: &[String],
    folder: L,
    feed: &mut F,
    out: &mut O,
    err: &mut E,
    door: &mut D,
    gate: &G,
) -> (Status, L)
where
    R: Threads + Wait + Sync,
    requires { D.bound door.old ≡ None }
    ensures headline { let at = ⟦<OutsideFiles as Viewed<L, F, O, E, D>>⟧.at in
        Headline (line (map string_bytes words.now)) result.0
        (at folder feed.old out.old err.old door.old)
        (at result.1 feed.new out.new err.new door.new) }
    ensures killed { let at = ⟦<OutsideFiles as Viewed<L, F, O, E, D>>⟧.at in
        Killed (line (map string_bytes words.now)) (at folder feed.old out.old err.old door.old)
        (map objects_at (L.moments folder)) (map objects_at (L.moments result.1)) }
    ensures power { Survives (L.moments result.1) }
{
    let mut store = DirStore::new(folder, alloc);
    let status = run(rt, alloc, words, &mut store, feed, out, err, door, gate);
    (status, store.into_folder())
}
