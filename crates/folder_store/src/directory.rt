//! The objects below a folder.
ghost use Rattle.std.specs.Prelude.{[], ◌∷◌, map as map_list, ℕ, List, OnErr, string_bytes, ◌≡◌, ◌+◌, ◌++◌, ◌-◌, ◌<◌, ◌≤◌, ◌^◌, ◌↔◌, min, length, take, drop, Ok, Err, IfOk, OnOk, IsOk, IsSome, IfSome, Some, None, true, false, nat_eq, is_some, MatchOption};
ghost use Rattle.std.specs.FinMap as map;
ghost use Rattle.std.specs.IoError.{error_kind};
ghost use Rattle.std.specs.List.{ends_with};
ghost use Rattle.std.specs.Option.{option_map};
ghost use Rattle.vol_base.specs.Causes.{HasCauseOf};
ghost use Rattle.vol_base.specs.Outside.{KeepsRest, Passes, Reads, any_under};
ghost use Rattle.folder_store.specs.Absences.{says_absent};
ghost use Rattle.folder_store.specs.Below.{Among};
ghost use Rattle.folder_store.specs.Disks.{file_at, part_end, objects_of, is_object, IsApart, Stands, Touches, with_bytes, written, renamed};
ghost use Rattle.folder_store.specs.Searching.{ArePassed, HasBelow, IsObjectAt, IsPassed, IsSearched, JudgesPath};
ghost use Rattle.folder_store.specs.Shown.{IsOpen, IsDraft, IsFresh, Keeps, TurnsAt};

use crate::counts::count_fault;
use crate::folder::{Folder, Kind, Standing};
use std::alloc::{AllocError, Global};
use std::io::{self, ErrorKind};
use std::marker::Model;
use std::str;
use vol_base::{Failed, Got, Name, Source, Store, StoreRefusal};

// An object's file, and its length as it was opened. Its device and inode tell it from any other file.
#[derive(Drop)]
struct Object<T> {
    name: Name,
    file: T,
    len: u64,
    device: u64,
    inode: u64,
}

// The object being written: its file, whose path is the name with `.part` behind it, and its length so far.
#[derive(Drop)]
struct Unfinished<T> {
    name: Name,
    path: String,
    file: T,
    len: u64,
}

/// The objects below a folder: a name is a path there.
///
/// A folder, a name below a file, a segment that is longer than the file system takes, and a name
/// whose last segment ends in `.part` are no object. Every other error of the system is a fault, and so is
/// what is neither a file nor a folder. So is memory that is refused, but where an object is begun: other
/// calls have no other answer for it. It tells the objects where the folder tells its disk.
///
/// The object that was read last stays open until another is asked for, or one is put, or its size is asked for and
/// another file, or a longer or shorter one, stands in its place.
///
/// An object is written to a file with `.part` behind its name, which is renamed at the end, in place of an older object.
/// Where one stands the disk is waited for first, so a loss of power leaves the old one or the new one.
/// After a refusal, and where another object is begun, that file is removed, if the system lets it. What an earlier run
/// left there, a file or a link of either kind, is unlinked and made anew, so that nothing that a link leads to is written;
/// a folder there, or what is neither a file nor a link, is a fault.
#[derive(Drop)]
pub struct DirStore<F: Folder> {
    folder: F,
    alloc: Global,
    opened: Option<Object<F::File>>,
    writing: Option<Unfinished<F::Part>>,
    asked: u64,
    faults: u64,
}

impl<F: Folder> Model for DirStore<F> {
    ghost use Rattle.std.specs.Prelude.{◌≡◌, false, IfSome, string_bytes, map as map_list};
    ghost use Rattle.std.specs.Option.{option_map};
    ghost use Rattle.folder_store.specs.Disks.{objects_of, objects_at, is_object};
    ghost use Rattle.folder_store.specs.ObjectBytes.{have_told};
    ghost use Rattle.folder_store.specs.Shown.{Shown, shown_code, shown_in, IsOpen, IsDraft};

    ghost Value = { Shown };

    ghost coded = { shown_code };

    ghost view = { λ s. record {
      objects = option_map objects_of (F.Folder.disk s.folder);
      sound = have_told (F.Folder.disk s.folder) (F.Folder.bytes s.folder);
      writing =
          option_map (λ w. shown_in (F.Folder.disk s.folder) w.name (F.Folder.writes w.file) w.len) s.writing;
      history = map_list objects_at (F.Folder.moments s.folder);
      asked = s.asked;
      faults = s.faults;
    } };

    ghost invariant = { λ s. IfSome (F.Folder.disk s.folder) (λ d.
        (IfSome s.opened (λ o. IsOpen d o.name (F.Folder.opened o.file) o.len)) ×
        (IfSome s.writing (λ w. IsDraft d w.name (string_bytes w.path) (F.Folder.writes w.file) w.len)))
        × IfSome s.writing (λ w. is_object (string_bytes w.path) ≡ false) };
}

impl<F: Folder> DirStore<F> {
    ghost use Rattle.std.specs.Prelude.{◌≡◌, None, map as map_list};
    ghost use Rattle.std.specs.Option.{option_map};
    ghost use Rattle.folder_store.specs.Disks.{objects_of, objects_at};
    ghost use Rattle.folder_store.specs.ObjectBytes.{have_told};
    ghost use Rattle.folder_store.specs.Power.{Survives};

    /// Nothing was asked for, nothing failed, and no object is being written.
    pub fn new(folder: F, alloc: Global) -> DirStore<F>
        ensures { result ≡ record {
          objects = option_map objects_of (F.disk folder);
          sound = have_told (F.disk folder) (F.bytes folder);
          writing = None;
          history = map_list objects_at (F.moments folder);
          asked = 0;
          faults = 0;
        } }
    {
        DirStore {
            folder,
            alloc,
            opened: None,
            writing: None,
            asked: 0,
            faults: 0,
        }
    }

    /// The folder, and no more of what was open.
    pub fn into_folder(self) -> F
        ensures objects { self.objects ≡ option_map objects_of (F.disk result) }
        ensures history { self.history ≡ map_list objects_at (F.moments result) }
        ensures power { Survives (F.moments result) }
    {
        let DirStore { folder, .. } = self;
        folder
    }
}

// Whether a file of this name is still being written.
fn is_unfinished(name: &Name) -> bool
    ensures { result ≡ ends_with nat_eq name.now part_end }
{
    name.as_bytes().ends_with(b".part")
}

// Whether an error says that there is no such object.
fn tells_absence(error: &io::Error) -> bool
    ensures { result ≡ says_absent (error_kind error.now) }
{
    matches!(
        error.kind(),
        ErrorKind::NotFound
            | ErrorKind::IsADirectory
            | ErrorKind::NotADirectory
            | ErrorKind::InvalidFilename
    )
}

// Whether what was found is an object: a file is, a folder isn't, and all else is a fault.
fn judge(found: &Standing) -> Result<bool, Failed>
    ensures file { result ≡ Ok true ↔ found.now.kind ≡ Kind.File }
    ensures folder { result ≡ Ok false ↔ found.now.kind ≡ Kind.Folder }
{
    match found.kind {
        Kind::File => Ok(true),
        Kind::Folder => Ok(false),
        Kind::Link | Kind::Other => Err(Failed),
    }
}

// Whether there is an object at a path. This is asked before the file is opened, since an open would wait
// at a pipe.
fn find<F: Folder>(folder: &mut F, path: &str) -> Result<bool, Failed>
    ensures found { IfOk result (λ found. IfSome (F.disk folder.old) (λ d. is_some (file_at d path.now) ≡ found)) }
    ensures same { F.disk folder.new ≡ F.disk folder.old }
    ensures moments { F.moments folder.new ≡ F.moments folder.old }
{
    match folder.stat(path) {
        Ok(found) => judge(&found),
        Err(error) if tells_absence(&error) => Ok(false),
        Err(_) => Err(Failed),
    }
}

// Opens the file at a path, where there is one, and tells what it is.
fn open_file<F: Folder>(folder: &mut F, path: &str) -> Result<Option<(F::File, Standing)>, Failed>
    ensures found { IfOk result (λ found. IfSome (F.disk folder.old) (λ d.
        MatchOption found (file_at d path.now ≡ None) (λ f. (F.opened f.0 ≡ file_at d path.now)
        × (option_map (λ n. length (d.holds n)) (file_at d path.now) ≡ Some f.1.len)))) }
    ensures same { F.disk folder.new ≡ F.disk folder.old }
    ensures moments { F.moments folder.new ≡ F.moments folder.old }
{
    let file = match folder.open(path) {
        Ok(file) => file,
        Err(error) if tells_absence(&error) => return Ok(None),
        Err(_) => return Err(Failed),
    };
    let Ok(found) = folder.stat_file(&file) else {
        return Err(Failed);
    };
    if judge(&found)? {
        Ok(Some((file, found)))
    } else {
        Ok(None)
    }
}

// Opens an object, where there is one.
#[tactic(auto, using(crate::proofs::ObjectSteps::part_told, crate::proofs::ObjectSteps::missing_told, crate::proofs::ObjectSteps::none_told, crate::proofs::ObjectSteps::open_told))]
fn open_object<F: Folder>(folder: &mut F, name: &Name) -> Result<Option<Object<F::File>>, Failed>
    ensures name { IfOk result (λ opened. IfSome opened (λ object. object.name ≡ name.now)) }
    ensures found { IfOk result (λ opened. IfSome (F.disk folder.old) (λ d.
        MatchOption opened (map.get (objects_of d) name.now ≡ None)
        (λ o. IsOpen d o.name (F.opened o.file) o.len))) }
    ensures same { F.disk folder.new ≡ F.disk folder.old }
    ensures moments { F.moments folder.new ≡ F.moments folder.old }
{
    let Ok(path) = str::from_utf8(name.as_bytes()) else {
        return Err(Failed);
    };
    if is_unfinished(name) {
        return Ok(None);
    }
    if !find(folder, path)? {
        return Ok(None);
    }
    match open_file(folder, path)? {
        Some((file, found)) => Ok(Some(Object {
            name: name.duplicate(),
            file,
            len: found.len,
            device: found.device,
            inode: found.inode,
        })),
        None => Ok(None),
    }
}

// Opens the object of this name in place of the one that is open, unless it is that one. Afterwards
// no other is open.
fn turn_to<F: Folder>(
    folder: &mut F,
    opened: &mut Option<Object<F::File>>,
    name: &Name,
) -> Result<(), Failed>
    requires { IfSome (F.disk folder.old) (λ d. IfSome opened.old (λ o. IsOpen d o.name (F.opened o.file) o.len)) }
    ensures name { IfSome opened.new (λ object. object.name ≡ name.now) }
    ensures found { OnOk result (IfSome (F.disk folder.old) (λ d.
        MatchOption opened.new (map.get (objects_of d) name.now ≡ None)
        (λ o. IsOpen d o.name (F.opened o.file) o.len))) }
    ensures open { IfSome (F.disk folder.new) (λ d. IfSome opened.new (λ o. IsOpen d o.name (F.opened o.file) o.len)) }
    ensures same { F.disk folder.new ≡ F.disk folder.old }
    ensures moments { F.moments folder.new ≡ F.moments folder.old }
{
    if let Some(object) = opened {
        if object.name.as_bytes() == name.as_bytes() {
            return Ok(());
        }
    }
    *opened = None;
    *opened = open_object(folder, name)?;
    Ok(())
}

// Whether what stands at an object's path by now is its file, as long as it was.
fn is_current<F: Folder>(folder: &mut F, object: &Object<F::File>) -> bool
    ensures same { F.disk folder.new ≡ F.disk folder.old }
    ensures moments { F.moments folder.new ≡ F.moments folder.old }
{
    let Ok(path) = str::from_utf8(object.name.as_bytes()) else {
        return false;
    };
    match folder.stat(path) {
        Ok(found) => {
            found.inode == object.inode && found.device == object.device && found.len == object.len
        }
        Err(_) => false,
    }
}

// Opens the object of this name in place of the one that is open, unless it is that one and its file still stands.
// Afterwards no other is open.
fn turn_anew<F: Folder>(
    folder: &mut F,
    opened: &mut Option<Object<F::File>>,
    name: &Name,
) -> Result<(), Failed>
    requires { IfSome (F.disk folder.old) (λ d. IfSome opened.old (λ o. IsOpen d o.name (F.opened o.file) o.len)) }
    ensures name { IfSome opened.new (λ object. object.name ≡ name.now) }
    ensures found { OnOk result (IfSome (F.disk folder.old) (λ d.
        MatchOption opened.new (map.get (objects_of d) name.now ≡ None)
        (λ o. IsOpen d o.name (F.opened o.file) o.len))) }
    ensures open { IfSome (F.disk folder.new) (λ d. IfSome opened.new (λ o. IsOpen d o.name (F.opened o.file) o.len)) }
    ensures same { F.disk folder.new ≡ F.disk folder.old }
    ensures moments { F.moments folder.new ≡ F.moments folder.old }
{
    if let Some(object) = opened {
        if object.name.as_bytes() == name.as_bytes() && !is_current(folder, object) {
            *opened = None;
        }
    }
    turn_to(folder, opened, name)
}

// Reads some bytes from a place of a file on, at least one. What a signal broke off is tried again, and the end of the
// file is a fault.
fn read_some<F: Folder>(
    folder: &mut F,
    file: &F::File,
    at: u64,
    out: &mut [u8],
) -> Result<usize, Failed>
    requires { 0 < length out.old }
    ensures some { IfOk result (λ n. (0 < n) × (n ≤ length out.old)) }
    ensures read { IfOk result (λ n. IfSome (F.disk folder.old) (λ d. IfSome (F.opened file.now) (λ number.
        take n out.new ≡ take n (drop at (d.holds number))))) }
    ensures same { F.disk folder.new ≡ F.disk folder.old }
    ensures moments { F.moments folder.new ≡ F.moments folder.old }
{
    for _ in 0..u64::MAX {
        match folder.read_at(file, at, out) {
            Ok(0) => return Err(Failed),
            Ok(n) => return Ok(n),
            Err(error) if error.kind() == ErrorKind::Interrupted => {}
            Err(_) => return Err(Failed),
        }
    }
    Err(Failed)
}

// Fills a buffer from a place of a file on.
fn fill<F: Folder>(folder: &mut F, file: &F::File, at: u64, out: &mut [u8]) -> Result<(), Failed>
    requires { at + length out.old < 2 ^ 64 }
    ensures filled { OnOk result (IfSome (F.disk folder.old) (λ d. IfSome (F.opened file.now) (λ number.
        out.new ≡ take (length out.old) (drop at (d.holds number))))) }
    ensures same { F.disk folder.new ≡ F.disk folder.old }
    ensures moments { F.moments folder.new ≡ F.moments folder.old }
{
    let mut done = 0;
    while done < out.len() {
        done += read_some(folder, file, at + done as u64, &mut out[done..])?;
    }
    Ok(())
}

// Fills the front of a buffer.
fn fill_front<F: Folder>(
    folder: &mut F,
    file: &F::File,
    at: u64,
    n: usize,
    out: &mut [u8],
) -> Result<(), Failed>
    requires end { at + length out.old < 2 ^ 64 }
    requires room { n ≤ length out.old }
    ensures filled { OnOk result (IfSome (F.disk folder.old) (λ d. IfSome (F.opened file.now) (λ number.
        out.new ≡ take n (drop at (d.holds number)) ++ drop n out.old))) }
    ensures rest { drop n out.new ≡ drop n out.old }
    ensures same { F.disk folder.new ≡ F.disk folder.old }
    ensures moments { F.moments folder.new ≡ F.moments folder.old }
{
    fill(folder, file, at, &mut out[..n])
}

// Reads an object from a place on, until the buffer is full or the object ends. A file that is
// shorter than it was is a fault.
fn read_object<F: Folder>(
    folder: &mut F,
    object: &Object<F::File>,
    at: u64,
    out: &mut [u8],
) -> Result<Got, Failed>
    requires end { at + length out.old < 2 ^ 64 }
    requires open { IfSome (F.disk folder.old) (λ d. IsOpen d object.now.name (F.opened object.now.file) object.now.len) }
    ensures read { IfOk result (λ got. IfSome (F.disk folder.old) (λ d.
        Reads (map.get (objects_of d) object.now.name) at out.old out.new got)) }
    ensures rest { IfOk result (KeepsRest out.old out.new) }
    ensures same { F.disk folder.new ≡ F.disk folder.old }
    ensures moments { F.moments folder.new ≡ F.moments folder.old }
{
    let left = object.len.saturating_sub(at);
    let n = left.min(out.len() as u64);
    fill_front(folder, &object.file, at, n as usize, out)?;
    Ok(Got::Bytes(n))
}

// Reads what is open, if anything is.
fn read_opened<F: Folder>(
    folder: &mut F,
    opened: &Option<Object<F::File>>,
    name: &Name,
    at: u64,
    out: &mut [u8],
) -> Result<Got, Failed>
    requires end { at + length out.old < 2 ^ 64 }
    requires name { IfSome opened.now (λ object. object.name ≡ name.now) }
    requires open { IfSome (F.disk folder.old) (λ d. MatchOption opened.now
        (map.get (objects_of d) name.now ≡ None) (λ o. IsOpen d o.name (F.opened o.file) o.len)) }
    ensures read { IfOk result (λ got. IfSome (F.disk folder.old) (λ d.
        Reads (map.get (objects_of d) name.now) at out.old out.new got)) }
    ensures rest { IfOk result (KeepsRest out.old out.new) }
    ensures same { F.disk folder.new ≡ F.disk folder.old }
    ensures moments { F.moments folder.new ≡ F.moments folder.old }
{
    match opened {
        None => Ok(Got::Absent),
        Some(object) => read_object(folder, object, at, out),
    }
}

// The length of what is open.
fn size_of<T>(opened: &Option<Object<T>>) -> Option<u64>
    ensures { result ≡ option_map (λ o. o.len) opened.now }
{
    match opened {
        None => None,
        Some(object) => Some(object.len),
    }
}

impl<F: Folder> Source for DirStore<F> {
    ghost use Rattle.vol_base.specs.Causes.{counted, is_count};
    ghost use Rattle.folder_store.specs.Shown.{draft_of};

    ghost objects = { λ s. s.objects };

    ghost draft = { draft_of };

    ghost history = { λ s. s.history };

    ghost asked = { λ s. counted s.asked };

    ghost faults = { λ s. counted s.faults };

    ghost counts = { λ s. (is_count s.asked, is_count s.faults) };

    ghost bytes = { λ s. s.sound };

    fn size(&mut self, name: &Name) -> Result<Option<u64>, Failed> {
        match turn_anew(&mut self.folder, &mut self.opened, name) {
            Ok(()) => Ok(size_of(&self.opened)),
            Err(failed) => {
                count_fault(&mut self.faults);
                Err(failed)
            }
        }
    }

    fn read_at(&mut self, name: &Name, at: u64, out: &mut [u8]) -> Result<Got, Failed> {
        self.asked = self.asked.saturating_add(out.len() as u64);
        match turn_to(&mut self.folder, &mut self.opened, name) {
            Ok(()) => {}
            Err(failed) => {
                count_fault(&mut self.faults);
                return Err(failed);
            }
        }
        match read_opened(&mut self.folder, &self.opened, name, at, out) {
            Ok(got) => Ok(got),
            Err(failed) => {
                self.opened = None;
                count_fault(&mut self.faults);
                Err(failed)
            }
        }
    }
}

// Removes the file of an object that isn't written to its end.
fn discard<F: Folder>(folder: &mut F, unfinished: Unfinished<F::Part>)
    requires { is_object (string_bytes unfinished.path) ≡ false }
    ensures { Keeps (F.disk folder.old) (F.disk folder.new) (F.moments folder.old) (F.moments folder.new) }
{
    let _ = folder.remove(unfinished.path.as_str());
}

// Makes a file where nothing stands.
fn make_new<F: Folder>(folder: &mut F, path: &str) -> Result<F::Part, Failed>
    requires { is_object path.now ≡ false }
    ensures made { IfOk result (λ part. IfSome (F.disk folder.new) (λ d. IsFresh d path.now (F.writes part))) }
    ensures spared { Keeps (F.disk folder.old) (F.disk folder.new) (F.moments folder.old) (F.moments folder.new) }
{
    match folder.make(path) {
        Ok(part) => Ok(part),
        Err(_) => Err(Failed),
    }
}

// Whether a file or a link is left where a draft is to be. All else that stands there is a fault. It is neither opened nor
// followed: an open would wait at a pipe, and a write would go where a link leads.
fn is_left<F: Folder>(folder: &mut F, path: &str) -> Result<bool, Failed>
    ensures same { F.disk folder.new ≡ F.disk folder.old }
    ensures moments { F.moments folder.new ≡ F.moments folder.old }
{
    match folder.stat_itself(path) {
        Ok(found) => match found.kind {
            Kind::File | Kind::Link => Ok(true),
            Kind::Folder | Kind::Other => Err(Failed),
        },
        Err(error) if tells_absence(&error) => Ok(false),
        Err(_) => Err(Failed),
    }
}

// Removes what is no object.
fn remove_part<F: Folder>(folder: &mut F, path: &str) -> Result<(), Failed>
    requires { is_object path.now ≡ false }
    ensures { Keeps (F.disk folder.old) (F.disk folder.new) (F.moments folder.old) (F.moments folder.new) }
{
    match folder.remove(path) {
        Ok(()) => Ok(()),
        Err(_) => Err(Failed),
    }
}

// Removes the file or the link that is left where a draft is to be, if one is.
fn make_room<F: Folder>(folder: &mut F, path: &str) -> Result<(), Failed>
    requires { is_object path.now ≡ false }
    ensures { Keeps (F.disk folder.old) (F.disk folder.new) (F.moments folder.old) (F.moments folder.new) }
{
    if is_left(folder, path)? {
        return remove_part(folder, path);
    }
    Ok(())
}

// Makes the folders above a file.
fn make_parents<F: Folder>(folder: &mut F, path: &str) -> Result<(), Failed>
    ensures same { F.disk folder.new ≡ F.disk folder.old }
    ensures moments { F.moments folder.new ≡ F.moments folder.old }
{
    let Some((parents, _)) = path.rsplit_once('/') else {
        return Ok(());
    };
    match folder.make_folders(parents) {
        Ok(()) => Ok(()),
        Err(_) => Err(Failed),
    }
}

// Makes a file that is to be written, and the folders above it, in place of a file or a link that stands there: it may
// be another name of some file, so that file isn't emptied.
fn make_anyway<F: Folder>(folder: &mut F, path: &str) -> Result<F::Part, Failed>
    requires { is_object path.now ≡ false }
    ensures made { IfOk result (λ part. IfSome (F.disk folder.new) (λ d. IsFresh d path.now (F.writes part))) }
    ensures spared { Keeps (F.disk folder.old) (F.disk folder.new) (F.moments folder.old) (F.moments folder.new) }
{
    make_parents(folder, path)?;
    make_room(folder, path)?;
    make_new(folder, path)
}

// Makes a file that is to be written. Mostly its folder is there and it isn't, so that one call is enough.
fn make_file<F: Folder>(folder: &mut F, path: &str) -> Result<F::Part, Failed>
    requires { is_object path.now ≡ false }
    ensures made { IfOk result (λ part. IfSome (F.disk folder.new) (λ d. IsFresh d path.now (F.writes part))) }
    ensures spared { Keeps (F.disk folder.old) (F.disk folder.new) (F.moments folder.old) (F.moments folder.new) }
{
    match make_new(folder, path) {
        Ok(part) => Ok(part),
        Err(_) => make_anyway(folder, path),
    }
}

// The path of an object that is being written.
fn part_path(alloc: Global, name: &str) -> Result<String, AllocError>
    ensures { IfOk result (λ path. string_bytes path ≡ name.now ++ part_end) }
{
    let mut path = String::from_str(alloc, name)?;
    path.push_str(".part")?;
    Ok(path)
}

// Starts an object, which is empty.
fn start<F: Folder>(
    folder: &mut F,
    alloc: Global,
    name: &Name,
) -> Result<Unfinished<F::Part>, StoreRefusal>
    ensures started { IfOk result (λ u. IfSome (F.disk folder.new) (λ d.
        IsDraft d name.now (string_bytes u.path) (F.writes u.file) u.len × (d.holds (F.writes u.file) ≡ []))) }
    ensures name { IfOk result (λ u. (u.name ≡ name.now) × (u.len ≡ 0)
        × (is_object (string_bytes u.path) ≡ false)) }
    ensures spared { Keeps (F.disk folder.old) (F.disk folder.new) (F.moments folder.old) (F.moments folder.new) }
{
    if is_unfinished(name) {
        return Err(StoreRefusal::Failed);
    }
    let Ok(path) = str::from_utf8(name.as_bytes()) else {
        return Err(StoreRefusal::Failed);
    };
    let Ok(path) = part_path(alloc, path) else {
        return Err(StoreRefusal::OutOfMemory);
    };
    let Ok(file) = make_file(folder, path.as_str()) else {
        return Err(StoreRefusal::Failed);
    };
    Ok(Unfinished {
        name: name.duplicate(),
        path,
        file,
        len: 0,
    })
}

// Writes some bytes from a place on, at least one. What a signal broke off is tried again.
fn write_some<F: Folder>(
    folder: &mut F,
    part: &mut F::Part,
    at: u64,
    piece: &[u8],
) -> Result<usize, Failed>
    requires some { 0 < length piece.now }
    requires place { IfSome (F.disk folder.old) (λ d. at ≤ length (d.holds (F.writes part.old))) }
    requires apart { IfSome (F.disk folder.old) (λ d. IsApart d (F.writes part.old)) }
    ensures some { IfOk result (λ n. (0 < n) × (n ≤ length piece.now)) }
    ensures written { IfOk result (λ n. F.disk folder.new
        ≡ option_map (λ d. written d (F.writes part.old) at (take n piece.now)) (F.disk folder.old)) }
    ensures failed { OnErr result ((bytes : List ℕ) × (F.disk folder.new
        ≡ option_map (λ d. with_bytes d (F.writes part.old) bytes) (F.disk folder.old))) }
    ensures part { F.writes part.new ≡ F.writes part.old }
    ensures moments { Passes (Touches (F.disk folder.old) (F.writes part.old)) (F.moments folder.old) (F.moments folder.new) }
{
    for _ in 0..u64::MAX {
        match folder.write_at(part, at, piece) {
            Ok(n) if n > 0 => return Ok(n),
            Ok(_) => return Err(Failed),
            Err(error) if error.kind() == ErrorKind::Interrupted => {}
            Err(_) => return Err(Failed),
        }
    }
    Err(Failed)
}

// Writes a piece from a place on.
fn write_piece<F: Folder>(
    folder: &mut F,
    part: &mut F::Part,
    at: u64,
    piece: &[u8],
) -> Result<(), Failed>
    requires place { IfSome (F.disk folder.old) (λ d. at ≤ length (d.holds (F.writes part.old))) }
    requires apart { IfSome (F.disk folder.old) (λ d. IsApart d (F.writes part.old)) }
    requires end { at + length piece.now < 2 ^ 64 }
    ensures written { OnOk result (F.disk folder.new
        ≡ option_map (λ d. written d (F.writes part.old) at piece.now) (F.disk folder.old)) }
    ensures failed { OnErr result ((bytes : List ℕ) × (F.disk folder.new
        ≡ option_map (λ d. with_bytes d (F.writes part.old) bytes) (F.disk folder.old))) }
    ensures part { F.writes part.new ≡ F.writes part.old }
    ensures moments { Passes (Touches (F.disk folder.old) (F.writes part.old)) (F.moments folder.old) (F.moments folder.new) }
{
    let mut done = 0;
    while done < piece.len() {
        done += write_some(folder, part, at + done as u64, &piece[done..])?;
    }
    Ok(())
}

// The object with a piece behind it.
fn extend<F: Folder>(
    folder: &mut F,
    mut unfinished: Unfinished<F::Part>,
    piece: &[u8],
) -> Result<Unfinished<F::Part>, StoreRefusal>
    requires path { is_object (string_bytes unfinished.path) ≡ false }
    requires draft { IfSome (F.disk folder.old) (λ d.
        IsDraft d unfinished.name (string_bytes unfinished.path) (F.writes unfinished.file) unfinished.len) }
    ensures len { IfOk result (λ longer. longer.len ≡ unfinished.len + length piece.now) }
    ensures same { IfOk result (λ u. (u.name ≡ unfinished.name) × (u.path ≡ unfinished.path)
        × (F.writes u.file ≡ F.writes unfinished.file)) }
    ensures extended { OnOk result (F.disk folder.new
        ≡ option_map (λ d. written d (F.writes unfinished.file) unfinished.len piece.now) (F.disk folder.old)) }
    ensures spared { Keeps (F.disk folder.old) (F.disk folder.new) (F.moments folder.old) (F.moments folder.new) }
{
    let end = unfinished.len;
    let Some(len) = end.checked_add(piece.len() as u64) else {
        discard(folder, unfinished);
        return Err(StoreRefusal::Failed);
    };
    match write_piece(folder, &mut unfinished.file, end, piece) {
        Ok(()) => {
            unfinished.len = len;
            Ok(unfinished)
        }
        Err(_) => {
            discard(folder, unfinished);
            Err(StoreRefusal::Failed)
        }
    }
}

// Whether no object stands at a path.
fn is_free<F: Folder>(folder: &mut F, path: &str) -> bool
    ensures free { result ≡ true → IfSome (F.disk folder.old) (λ d. file_at d path.now ≡ None) }
    ensures same { F.disk folder.new ≡ F.disk folder.old }
    ensures moments { F.moments folder.new ≡ F.moments folder.old }
{
    match folder.stat(path) {
        Ok(_) => false,
        Err(error) => tells_absence(&error),
    }
}

// Waits until the disk has what a draft holds, if an object stands in its place: that one is lost only once the disk has
// the new one. A new object takes nothing's place.
fn settle<F: Folder>(folder: &mut F, part: &F::Part, path: &str) -> Result<(), Failed>
    ensures settled { OnOk result (IfSome (F.disk folder.new) (λ d.
        IsSome (file_at d path.now) → F.kept folder.new (F.writes part.now) ≡ true)) }
    ensures same { F.disk folder.new ≡ F.disk folder.old }
    ensures moments { Passes (Stands (F.disk folder.old)) (F.moments folder.old) (F.moments folder.new) }
{
    if is_free(folder, path) {
        return Ok(());
    }
    match folder.sync(part) {
        Ok(()) => Ok(()),
        Err(_) => Err(Failed),
    }
}

// Puts an object that is written to its end in its place.
fn put<F: Folder>(folder: &mut F, unfinished: Unfinished<F::Part>) -> Result<(), Failed>
    requires path { is_object (string_bytes unfinished.path) ≡ false }
    requires draft { IfSome (F.disk folder.old) (λ d.
        IsDraft d unfinished.name (string_bytes unfinished.path) (F.writes unfinished.file) unfinished.len) }
    ensures put { OnOk result (F.disk folder.new
        ≡ option_map (λ d. renamed d (string_bytes unfinished.path) unfinished.name) (F.disk folder.old)) }
    ensures turned { OnOk result (TurnsAt (F.disk folder.old) (F.disk folder.new) (F.moments folder.old) (F.moments folder.new)) }
    ensures spared { OnErr result (Keeps (F.disk folder.old) (F.disk folder.new) (F.moments folder.old) (F.moments folder.new)) }
{
    let Ok(path) = str::from_utf8(unfinished.name.as_bytes()) else {
        discard(folder, unfinished);
        return Err(Failed);
    };
    if settle(folder, &unfinished.file, path).is_err() {
        discard(folder, unfinished);
        return Err(Failed);
    }
    match folder.rename(unfinished.path.as_str(), path) {
        Ok(()) => Ok(()),
        Err(_) => {
            discard(folder, unfinished);
            Err(Failed)
        }
    }
}

// A refusal, which is counted where it is a fault. Want of memory isn't one.
fn refuse(faults: &mut u64, refusal: StoreRefusal) -> Result<(), StoreRefusal>
    ensures result { result ≡ Err refusal }
    ensures cause { HasCauseOf StoreRefusal.Failed faults.old faults.new result }
{
    if refusal == StoreRefusal::Failed {
        count_fault(faults);
    }
    Err(refusal)
}

// Drops the object being written.
fn drop_draft<F: Folder>(folder: &mut F, writing: &mut Option<Unfinished<F::Part>>)
    requires { IfSome writing.old (λ w. is_object (string_bytes w.path) ≡ false) }
    ensures writing { writing.new ≡ None }
    ensures spared { Keeps (F.disk folder.old) (F.disk folder.new) (F.moments folder.old) (F.moments folder.new) }
{
    match writing.take() {
        Some(unfinished) => discard(folder, unfinished),
        None => {}
    }
}

// The object with bytes overwritten from a place on.
fn overwrite<F: Folder>(
    folder: &mut F,
    mut unfinished: Unfinished<F::Part>,
    at: u64,
    piece: &[u8],
) -> Result<Unfinished<F::Part>, StoreRefusal>
    requires path { is_object (string_bytes unfinished.path) ≡ false }
    requires draft { IfSome (F.disk folder.old) (λ d.
        IsDraft d unfinished.name (string_bytes unfinished.path) (F.writes unfinished.file) unfinished.len) }
    requires within { at + length piece.now ≤ unfinished.len }
    ensures same { IfOk result (λ u. (u.name ≡ unfinished.name) × (u.path ≡ unfinished.path)
        × (F.writes u.file ≡ F.writes unfinished.file) × (u.len ≡ unfinished.len)) }
    ensures patched { OnOk result (F.disk folder.new
        ≡ option_map (λ d. written d (F.writes unfinished.file) at piece.now) (F.disk folder.old)) }
    ensures spared { Keeps (F.disk folder.old) (F.disk folder.new) (F.moments folder.old) (F.moments folder.new) }
{
    match write_piece(folder, &mut unfinished.file, at, piece) {
        Ok(()) => Ok(unfinished),
        Err(_) => {
            discard(folder, unfinished);
            Err(StoreRefusal::Failed)
        }
    }
}

// What stands at a path below a folder, as far as objects go.
enum Entry {
    Object,
    Folder,
    Nothing,
}

// What was found at a path.
fn judge_found(found: &Standing, path: &str) -> Result<Entry, Failed>
    ensures object { result ≡ Ok Entry.Object → (found.now.kind ≡ Kind.File) × (is_object path.now ≡ true) }
    ensures folder { result ≡ Ok Entry.Folder → found.now.kind ≡ Kind.Folder }
    ensures nothing { result ≡ Ok Entry.Nothing → (found.now.kind ≡ Kind.File) × (is_object path.now ≡ false) }
{
    if !judge(found)? {
        return Ok(Entry::Folder);
    }
    if path.as_bytes().ends_with(b".part") {
        return Ok(Entry::Nothing);
    }
    Ok(Entry::Object)
}

// What stands at a path. It isn't opened, since an open would wait at a pipe.
fn judge_entry<F: Folder>(folder: &mut F, path: &str) -> Result<Entry, Failed>
    ensures judged { IfOk result (λ entry. IfSome (F.disk folder.old) (λ d. JudgesPath d path.now entry)) }
    ensures same { F.disk folder.new ≡ F.disk folder.old }
    ensures moments { F.moments folder.new ≡ F.moments folder.old }
{
    match folder.stat(path) {
        Ok(found) => judge_found(&found, path),
        Err(error) if tells_absence(&error) => Ok(Entry::Nothing),
        Err(_) => Err(Failed),
    }
}

// Puts a path on a list.
fn list_folder(folders: &mut Vec<String>, path: String) -> Result<(), Failed>
    ensures { OnOk result (map_list string_bytes folders.new.items ≡ map_list string_bytes folders.old.items ++ string_bytes path ∷ []) }
{
    match folders.push(path) {
        Ok(()) => Ok(()),
        Err(_) => Err(Failed),
    }
}

// The path that comes next, if one does.
fn next_path<F: Folder>(folder: &mut F, names: &mut F::Names) -> Result<Option<String>, Failed>
    ensures next { IfOk result (λ found. IfSome (F.disk folder.old) (λ _. MatchOption found (F.to_come names.old ≡ [])
        (λ path. F.to_come names.old ≡ string_bytes path ∷ F.to_come names.new))) }
    ensures same { F.disk folder.new ≡ F.disk folder.old }
    ensures moments { F.moments folder.new ≡ F.moments folder.old }
{
    match folder.next(names) {
        Ok(found) => Ok(found),
        Err(_) => Err(Failed),
    }
}

// Whether an object stands at a path. If a folder does, it is put on the list.
fn search_entry<F: Folder>(
    folder: &mut F,
    path: String,
    folders: &mut Vec<String>,
) -> Result<bool, Failed>
    ensures found { result ≡ Ok true → IfSome (F.disk folder.old) (λ d. IsObjectAt d (string_bytes path)) }
    ensures left { result ≡ Ok false → IfSome (F.disk folder.old) (λ d. IsPassed d (string_bytes path)
        (map_list string_bytes folders.old.items) (map_list string_bytes folders.new.items)) }
    ensures same { F.disk folder.new ≡ F.disk folder.old }
    ensures moments { F.moments folder.new ≡ F.moments folder.old }
{
    match judge_entry(folder, path.as_str())? {
        Entry::Object => Ok(true),
        Entry::Folder => {
            list_folder(folders, path)?;
            Ok(false)
        }
        Entry::Nothing => Ok(false),
    }
}

// Whether an object stands among the names of a folder that are to come. The folders in it are put on the list.
fn search_names<F: Folder>(
    folder: &mut F,
    names: &mut F::Names,
    folders: &mut Vec<String>,
) -> Result<bool, Failed>
    ensures found { result ≡ Ok true → IfSome (F.disk folder.old) (λ d. Among (IsObjectAt d) (F.to_come names.old)) }
    ensures left { result ≡ Ok false → IfSome (F.disk folder.old) (λ d. ArePassed d (F.to_come names.old)
        (map_list string_bytes folders.old.items) (map_list string_bytes folders.new.items)) }
    ensures same { F.disk folder.new ≡ F.disk folder.old }
    ensures moments { F.moments folder.new ≡ F.moments folder.old }
{
    for _ in 0..u64::MAX {
        match next_path(folder, names)? {
            None => return Ok(false),
            Some(path) => {
                if search_entry(folder, path, folders)? {
                    return Ok(true);
                }
            }
        }
    }
    Err(Failed)
}

// Whether an object stands in a folder. The folders in it are put on the list.
fn search_folder<F: Folder>(
    folder: &mut F,
    path: &str,
    folders: &mut Vec<String>,
) -> Result<bool, Failed>
    ensures found { result ≡ Ok true → IfSome (F.disk folder.old) (λ d. HasBelow d path.now) }
    ensures left { result ≡ Ok false → IfSome (F.disk folder.old) (λ d. IsSearched d path.now
        (map_list string_bytes folders.old.items) (map_list string_bytes folders.new.items)) }
    ensures same { F.disk folder.new ≡ F.disk folder.old }
    ensures moments { F.moments folder.new ≡ F.moments folder.old }
{
    match folder.list(path) {
        Ok(names) => {
            let mut names = names;
            search_names(folder, &mut names, folders)
        }
        Err(error) if tells_absence(&error) => Ok(false),
        Err(_) => Err(Failed),
    }
}

// Whether an object stands below a folder, at any depth. It ends at the first.
fn search_below<F: Folder>(folder: &mut F, alloc: Global, name: &Name) -> Result<bool, Failed>
    ensures found { IfOk result (λ found. IfSome (F.disk folder.old) (λ d. found ≡ any_under (objects_of d) name.now)) }
    ensures same { F.disk folder.new ≡ F.disk folder.old }
    ensures moments { F.moments folder.new ≡ F.moments folder.old }
{
    let Ok(path) = str::from_utf8(name.as_bytes()) else {
        return Err(Failed);
    };
    let Ok(path) = String::from_str(alloc, path) else {
        return Err(Failed);
    };
    let mut folders = Vec::new(alloc);
    list_folder(&mut folders, path)?;
    for _ in 0..u64::MAX {
        let Some(path) = folders.pop() else {
            return Ok(false);
        };
        if search_folder(folder, path.as_str(), &mut folders)? {
            return Ok(true);
        }
    }
    Err(Failed)
}

impl<F: Folder> Store for DirStore<F> {
    ghost use Rattle.folder_store.specs.Shown.{shown_tells};

    ghost tells = { shown_tells };

    fn any_under(&mut self, folder: &Name) -> Result<bool, Failed> {
        match search_below(&mut self.folder, self.alloc, folder) {
            Ok(found) => Ok(found),
            Err(failed) => {
                count_fault(&mut self.faults);
                Err(failed)
            }
        }
    }

    fn begin(&mut self, name: &Name) -> Result<(), StoreRefusal> {
        drop_draft(&mut self.folder, &mut self.writing);
        match start(&mut self.folder, self.alloc, name) {
            Ok(unfinished) => {
                self.writing = Some(unfinished);
                Ok(())
            }
            Err(refusal) => refuse(&mut self.faults, refusal),
        }
    }

    fn append(&mut self, piece: &[u8]) -> Result<(), StoreRefusal> {
        let Some(unfinished) = self.writing.take() else {
            return refuse(&mut self.faults, StoreRefusal::Failed);
        };
        match extend(&mut self.folder, unfinished, piece) {
            Ok(longer) => {
                self.writing = Some(longer);
                Ok(())
            }
            Err(refusal) => refuse(&mut self.faults, refusal),
        }
    }

    fn patch_front(&mut self, at: u64, piece: &[u8]) -> Result<(), StoreRefusal> {
        let Some(unfinished) = self.writing.take() else {
            return refuse(&mut self.faults, StoreRefusal::Failed);
        };
        match overwrite(&mut self.folder, unfinished, at, piece) {
            Ok(patched) => {
                self.writing = Some(patched);
                Ok(())
            }
            Err(refusal) => refuse(&mut self.faults, refusal),
        }
    }

    fn finish(&mut self) -> Result<(), StoreRefusal> {
        self.opened = None;
        let Some(unfinished) = self.writing.take() else {
            return refuse(&mut self.faults, StoreRefusal::Failed);
        };
        match put(&mut self.folder, unfinished) {
            Ok(()) => Ok(()),
            Err(_) => refuse(&mut self.faults, StoreRefusal::Failed),
        }
    }
}
