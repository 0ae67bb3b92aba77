//! Files in memory, kept as the changes that made them: so each moment is known.
ghost use Rattle.std.specs.Prelude.{ℕ, List, ◌∷◌, ◌++◌, option_to_list, ◌≡◌, ◌<◌, ◌≤◌, true, false, length, nat_eq, IfOk, IfErr, OnOk, OnErr, Some, IsTrue, take, drop, string_bytes, map as map_list};
ghost use Rattle.std.specs.IoError.{error_kind};
ghost use Rattle.std.specs.List.{list_any, filter_map};
ghost use Rattle.std.specs.Option.{option_map};
ghost use Rattle.folder_store.specs.Absences.{says_absent};
ghost use Rattle.folder_store.specs.Changes.{disk_of, moment_of, given_lower, told_path, told_bytes, gives_number, gives_below, SpareKept};
ghost use Rattle.folder_store.specs.Power.{KeepsKept};
ghost use Rattle.folder_store.specs.Disks.{file_at, IsNew};
ghost use Rattle.folder_store.specs.Below.{IsLeaf};
ghost use Rattle.vol_base.specs.Outside.{Gives, is_under, overwritten};

use crate::content::Content;
use crate::folder::{Folder, Kind, Standing};
use std::alloc::{AllocError, Global};
use std::io::{self, ErrorKind};

/// One change.
#[derive(Drop)]
pub enum Change {
    Made(String, usize),
    Wrote(usize, Content),
    Synced(usize),
    Moved(String, String, usize),
    Removed(String),
}

/// A file that is open.
#[derive(Drop)]
pub struct MemoryFile {
    pub number: usize,
}

/// The changes so far, the newest first; the numbers of the calls that fail, and of those that a signal breaks off if they read
/// or write; and how much a call reads or writes at most.
#[derive(Drop)]
pub struct MemoryFolder {
    pub alloc: Global,
    pub changes: Vec<Change>,
    pub calls: u64,
    pub failing: Vec<u64>,
    pub broken_off: Vec<u64>,
    pub piece: usize,
    pub ghost lasting: { SpareKept changes.items },
}

impl MemoryFolder {
    ghost use Rattle.std.specs.Prelude.{[], ◌≡◌};

    /// No files, and calls that succeed and read or write at most so much.
    pub fn new(alloc: Global, piece: usize) -> MemoryFolder
        ensures { result.changes.items ≡ [] }
    {
        MemoryFolder {
            alloc,
            changes: Vec::new(alloc),
            calls: 0,
            failing: Vec::new(alloc),
            broken_off: Vec::new(alloc),
            piece,
        }
    }
}

// One more call.
fn tick(calls: &mut u64, failing: &[u64]) -> io::Result<()>
    ensures { IfErr result (λ e. says_absent (error_kind e) ≡ false) }
{
    let number = *calls;
    *calls = calls.saturating_add(1);
    if failing.contains(&number) {
        return Err(io::Error::from(ErrorKind::PermissionDenied));
    }
    Ok(())
}

// One more call that a signal may break off.
fn tick_long(calls: &mut u64, failing: &[u64], broken_off: &[u64]) -> io::Result<()> {
    if broken_off.contains(calls) {
        *calls = calls.saturating_add(1);
        return Err(io::Error::from(ErrorKind::Interrupted));
    }
    tick(calls, failing)
}

// What a change says of a path: nothing, or which file is there from then on, if any is.
fn told_of(change: &Change, path: &[u8]) -> Option<Option<usize>>
    ensures { result ≡ told_path change.now path.now }
{
    match change {
        Change::Made(at, number) if path == at.as_bytes() => Some(Some(*number)),
        Change::Moved(_, to, number) if path == to.as_bytes() => Some(Some(*number)),
        Change::Moved(from, _, _) if path == from.as_bytes() => Some(None),
        Change::Removed(at) if path == at.as_bytes() => Some(None),
        _ => None,
    }
}

// Which file stands at a path.
fn lookup(changes: &[Change], path: &[u8]) -> Option<usize>
    ensures { result ≡ file_at (disk_of changes.now) path.now }
{
    let mut rest = changes;
    while let [first, after @ ..] = rest {
        if let Some(found) = told_of(first, path) {
            return found;
        }
        rest = after;
    }
    None
}

// What a change says of a file's bytes.
fn bytes_told(change: &Change, number: usize) -> Option<&[u8]>
    ensures { option_map (λ b. b.now) result ≡ told_bytes change.now number }
{
    match change {
        Change::Made(_, made) if *made == number => Some(&[]),
        Change::Wrote(wrote, content) if *wrote == number => Some(content.bytes.as_slice()),
        _ => None,
    }
}

// What a file holds.
fn bytes_of(changes: &[Change], number: usize) -> &[u8]
    ensures { result.now ≡ (disk_of changes.now).holds number }
{
    let mut rest = changes;
    while let [first, after @ ..] = rest {
        if let Some(found) = bytes_told(first, number) {
            return found;
        }
        rest = after;
    }
    &[]
}

fn gives_a_number(change: &Change, number: usize) -> bool
    ensures { result ≡ gives_number number change.now }
{
    match change {
        Change::Made(_, given) => *given == number,
        Change::Moved(_, _, given) => *given == number,
        _ => false,
    }
}

// Whether some change gave this file a path.
fn is_used(changes: &[Change], number: usize) -> bool
    ensures { result ≡ list_any (gives_number number) changes.now }
{
    changes.iter().any(|change| gives_a_number(change, number))
}

fn is_below(path: &[u8], lower: &[u8]) -> bool
    ensures { result ≡ is_under path.now lower.now }
{
    lower.starts_with(path) && lower.get(path.len()).copied().unwrap_or(0) == b'/'
}

fn gives_lower(change: &Change, path: &[u8]) -> bool
    ensures { result ≡ gives_below path.now change.now }
{
    match change {
        Change::Made(at, _) => is_below(path, at.as_bytes()),
        Change::Moved(_, to, _) => is_below(path, to.as_bytes()),
        _ => false,
    }
}

// Whether a file stood below a path at some time.
fn is_folder(changes: &[Change], path: &[u8]) -> bool
    ensures { result ≡ list_any (gives_below path.now) changes.now }
{
    changes.iter().any(|change| gives_lower(change, path))
}

// The path that a change gave a file, if it is below this one.
fn lower_path<'a>(change: &'a Change, path: &[u8]) -> Option<&'a str>
    ensures { option_map (λ p. p.now) result ≡ given_lower path.now change.now }
{
    match change {
        Change::Made(at, _) if is_below(path, at.as_bytes()) => Some(at.as_str()),
        Change::Moved(_, to, _) if is_below(path, to.as_bytes()) => Some(to.as_str()),
        _ => None,
    }
}

fn add_path(alloc: Global, paths: &mut Vec<String>, path: Option<&str>) -> Result<(), AllocError>
    ensures { OnOk result (map_list string_bytes paths.new.items
        ≡ map_list string_bytes paths.old.items ++ option_to_list (option_map (λ p. p.now) path.entry)) }
{
    match path {
        Some(path) => {
            paths.push(String::from_str(alloc, path)?)?;
            Ok(())
        }
        None => Ok(()),
    }
}

// The paths below a path that files had at some time.
fn paths_below(alloc: Global, changes: &[Change], path: &[u8]) -> Result<Vec<String>, AllocError>
    ensures { IfOk result (λ paths. map_list string_bytes paths.items ≡ filter_map (given_lower path.now) changes.now) }
{
    let mut paths = Vec::new(alloc);
    for change in changes {
        add_path(alloc, &mut paths, lower_path(change, path))?;
    }
    Ok(paths)
}

// Reads some bytes from a place on.
fn read_some(bytes: &[u8], at: u64, piece: usize, out: &mut [u8]) -> usize
    requires { 0 < length out.old }
    ensures within { result ≤ length out.old }
    ensures read { Gives result out.new (drop at bytes.now) }
{
    if at >= bytes.len() as u64 {
        return 0;
    }
    let left = &bytes[at as usize..];
    let n = left.len().min(out.len()).min(piece.max(1));
    out[..n].copy_from_slice(&left[..n]);
    n
}

// Bytes with a piece laid over from a place on.
fn laid_over(alloc: Global, bytes: &[u8], at: usize, piece: &[u8]) -> Result<Vec<u8>, AllocError>
    requires { at ≤ length bytes.now }
    ensures { IfOk result (λ new. new.items ≡ overwritten bytes.now at piece.now) }
{
    let (front, back) = bytes.split_at(at);
    let mut new = Vec::new(alloc);
    new.extend_from_slice(front)?;
    new.extend_from_slice(piece)?;
    if piece.len() < back.len() {
        new.extend_from_slice(&back[piece.len()..])?;
    }
    Ok(new)
}

// Notes a change.
fn note(folder: &mut MemoryFolder, change: Change) -> io::Result<()>
    requires { KeepsKept (moment_of folder.old.changes.items) (moment_of (change ∷ folder.old.changes.items)) }
    ensures ok { OnOk result (folder.new.changes.items ≡ change ∷ folder.old.changes.items) }
    ensures err { OnErr result (folder.new.changes.items ≡ folder.old.changes.items) }
{
    match folder.changes.insert(0, change) {
        Ok(()) => Ok(()),
        Err(_) => Err(io::Error::from(ErrorKind::OutOfMemory)),
    }
}

/// The paths that are still to come.
#[derive(Drop)]
pub struct MemoryNames {
    pub paths: Vec<String>,
}

impl Folder for MemoryFolder {
    ghost use Rattle.std.specs.Prelude.{[], Some, map as map_list};
    ghost use Rattle.folder_store.specs.Changes.{all_hold, kept_of, moments_of, moments_end, moments_last};

    type File = MemoryFile;

    type Part = MemoryFile;

    type Names = MemoryNames;

    ghost disk = { λ m. Some (disk_of m.changes.items) };

    ghost moments = { λ m. moments_of m.changes.items };

    ghost kept = { λ m. kept_of m.changes.items };

    ghost ends = { λ m. moments_end m.changes.items };

    ghost lasts = { λ m. moments_last m.changes.items m.lasting };

    ghost bytes = { λ m. all_hold m.changes.items };

    ghost opened = { λ f. Some f.number };

    ghost writes = { λ f. f.number };

    ghost to_come = { λ n. map_list string_bytes n.paths.items };

    fn stat(&mut self, path: &str) -> io::Result<Standing> {
        tick(&mut self.calls, &self.failing)?;
        let is_folder = is_folder(&self.changes, path.as_bytes());
        match lookup(&self.changes, path.as_bytes()) {
            Some(_) if is_folder => Err(io::Error::from(ErrorKind::PermissionDenied)),
            Some(number) => Ok(Standing {
                kind: Kind::File,
                len: bytes_of(&self.changes, number).len() as u64,
                device: 0,
                inode: number as u64,
            }),
            None if is_folder => Ok(Standing {
                kind: Kind::Folder,
                len: 0,
                device: 0,
                inode: 0,
            }),
            None => Err(io::Error::from(ErrorKind::NotFound)),
        }
    }

    fn stat_itself(&mut self, path: &str) -> io::Result<Standing> {
        self.stat(path)
    }

    fn open(&mut self, path: &str) -> io::Result<MemoryFile> {
        tick(&mut self.calls, &self.failing)?;
        match lookup(&self.changes, path.as_bytes()) {
            Some(number) => Ok(MemoryFile { number }),
            None => Err(io::Error::from(ErrorKind::NotFound)),
        }
    }

    fn stat_file(&mut self, file: &MemoryFile) -> io::Result<Standing> {
        tick(&mut self.calls, &self.failing)?;
        Ok(Standing {
            kind: Kind::File,
            len: bytes_of(&self.changes, file.number).len() as u64,
            device: 0,
            inode: file.number as u64,
        })
    }

    fn read_at(&mut self, file: &MemoryFile, at: u64, out: &mut [u8]) -> io::Result<usize> {
        tick_long(&mut self.calls, &self.failing, &self.broken_off)?;
        Ok(read_some(bytes_of(&self.changes, file.number), at, self.piece, out))
    }

    fn make(&mut self, path: &str) -> io::Result<MemoryFile> {
        tick(&mut self.calls, &self.failing)?;
        if lookup(&self.changes, path.as_bytes()).is_some() {
            return Err(io::Error::from(ErrorKind::AlreadyExists));
        }
        let number = self.changes.len();
        if is_used(&self.changes, number) {
            return Err(io::Error::from(ErrorKind::PermissionDenied));
        }
        let path = String::from_str(self.alloc, path)?;
        note(self, Change::Made(path, number))?;
        Ok(MemoryFile { number })
    }

    fn make_folders(&mut self, _path: &str) -> io::Result<()> {
        tick(&mut self.calls, &self.failing)
    }

    fn write_at(&mut self, part: &mut MemoryFile, at: u64, piece: &[u8]) -> io::Result<usize> {
        let torn = tick_long(&mut self.calls, &self.failing, &self.broken_off);
        match torn {
            Err(error) if error.kind() == ErrorKind::Interrupted => return Err(error),
            _ => {}
        }
        let n = piece.len().min(self.piece.max(1));
        let new = laid_over(
            self.alloc,
            bytes_of(&self.changes, part.number),
            at as usize,
            &piece[..n],
        )?;
        note(self, Change::Wrote(part.number, Content::new(new)))?;
        torn?;
        Ok(n)
    }

    fn sync(&mut self, part: &MemoryFile) -> io::Result<()> {
        tick(&mut self.calls, &self.failing)?;
        note(self, Change::Synced(part.number))
    }

    fn rename(&mut self, from: &str, to: &str) -> io::Result<()> {
        tick(&mut self.calls, &self.failing)?;
        let Some(number) = lookup(&self.changes, from.as_bytes()) else {
            return Err(io::Error::from(ErrorKind::NotFound));
        };
        let from = String::from_str(self.alloc, from)?;
        let to = String::from_str(self.alloc, to)?;
        note(self, Change::Moved(from, to, number))
    }

    fn remove(&mut self, path: &str) -> io::Result<()> {
        tick(&mut self.calls, &self.failing)?;
        let path = String::from_str(self.alloc, path)?;
        note(self, Change::Removed(path))
    }

    fn list(&mut self, path: &str) -> io::Result<MemoryNames> {
        tick(&mut self.calls, &self.failing)?;
        match paths_below(self.alloc, &self.changes, path.as_bytes()) {
            Ok(paths) => Ok(MemoryNames { paths }),
            Err(_) => Err(io::Error::from(ErrorKind::OutOfMemory)),
        }
    }

    fn next(&mut self, names: &mut MemoryNames) -> io::Result<Option<String>> {
        tick(&mut self.calls, &self.failing)?;
        if names.paths.is_empty() {
            return Ok(None);
        }
        Ok(Some(names.paths.remove(0)))
    }
}
