//! A folder of files, one method for each call of the system.
ghost use Rattle.std.specs.Prelude.{◌≡◌, ◌≢◌, ◌+◌, ◌<◌, ◌≤◌, ◌^◌, ℕ, List, length, take, drop, Option, Some, None, IfOk, IfErr, IfSome, OnErr, OnOk, IsSome, IsTrue, MatchOption, string_bytes, [], ◌∷◌};
ghost use Rattle.std.specs.Option.{option_map};
ghost use Rattle.std.specs.IoError.{error_kind};
ghost use Rattle.vol_base.specs.Bytes.{AreBytes};
ghost use Rattle.vol_base.specs.Outside.{Gives, Passes};
ghost use Rattle.folder_store.specs.Absences.{says_absent};

use std::io::{self, ErrorKind};

/// What stands at a path. A link is one only where it isn't followed.
#[derive(Clone, Copy, Debug, PartialEq, Eq)]
pub enum Kind {
    File,
    Folder,
    Link,
    Other,
}

/// What stands at a path, how long it is, and what tells it from any other.
#[derive(Clone, Copy, Debug)]
pub struct Standing {
    pub kind: Kind,
    pub len: u64,
    pub device: u64,
    pub inode: u64,
}

/// The files below a folder, as the system's calls see and change them, while nothing else writes there. Each method is
/// mostly one call.
pub trait Folder {
    ghost use Rattle.std.specs.Prelude.{Bool, true, false};
    ghost use Rattle.folder_store.specs.Disks.{Disk, Moment, file_at, bytes_at, is_object, HoldBytes, StandsAs, Stands, Touches, IsApart, IsLast, IsNew, IsSettled, with_bytes, made, written, renamed, removed};
    ghost use Rattle.folder_store.specs.Power.{Lasts};
    ghost use Rattle.folder_store.specs.Below.{IsLeaf, Lists};

    /// A file that is open for reading.
    type File: Drop;

    /// A file that was made, and is open for writing.
    type Part: Drop;

    /// A folder whose names are being read.
    type Names: Drop;

    /// The files, where they are told.
    ghost disk: { Self → Option Disk };

    /// Of which files the disk has by now what they hold.
    ghost kept: { Self → ℕ → Bool };

    /// What stood so far, moment by moment, where it is told. A kill leaves the last of them, or some later one.
    ghost moments: { Self → List Moment };

    /// What stands is the last moment.
    ghost ends: { (s : Self) → IfSome (disk s) (λ d. IsLast (moments s) (record { disk = d; kept = kept s })) };

    /// An object that the disk has stays there: no call may take it away, write to it, or put a file in its place that the
    /// disk doesn't have.
    ghost lasts: { (s : Self) → Lasts (moments s) };

    /// Which file a reader has open, if it is one.
    ghost opened: { Self.File → Option ℕ };

    /// Which file a writer has open.
    ghost writes: { Self.Part → ℕ };

    /// The paths that are still to come of a folder.
    ghost to_come: { Self.Names → List (List ℕ) };

    /// What files hold is bytes.
    ghost bytes: { (s : Self) → IfSome (disk s) HoldBytes };

    /// What stands at a path (`stat`).
    fn stat(&mut self, path: &str) -> io::Result<Standing>
        ensures found { IfOk result (λ s. IfSome (disk self.old) (λ d. StandsAs (bytes_at d path.now) s)) }
        ensures leaf { IfOk result (λ s. s.kind ≢ Kind.Folder → IfSome (disk self.old) (λ d. IsLeaf d path.now)) }
        ensures absent_below { IfErr result (λ e. IsTrue (says_absent (error_kind e)) →
            IfSome (disk self.old) (λ d. IsLeaf d path.now)) }
        ensures absent { IfErr result (λ e. IsTrue (says_absent (error_kind e)) →
            IfSome (disk self.old) (λ d. file_at d path.now ≡ None)) }
        ensures same { disk self.new ≡ disk self.old }
        ensures moments { moments self.new ≡ moments self.old };

    /// What stands at a path itself: of a link the link, and not what it leads to (`lstat`).
    fn stat_itself(&mut self, path: &str) -> io::Result<Standing>
        ensures same { disk self.new ≡ disk self.old }
        ensures moments { moments self.new ≡ moments self.old };

    /// Opens what stands at a path for reading (`open`). A folder can be opened too.
    fn open(&mut self, path: &str) -> io::Result<Self::File>
        ensures found { IfOk result (λ file. IfSome (disk self.old) (λ d. opened file ≡ file_at d path.now)) }
        ensures absent { IfErr result (λ e. IsTrue (says_absent (error_kind e)) →
            IfSome (disk self.old) (λ d. file_at d path.now ≡ None)) }
        ensures same { disk self.new ≡ disk self.old }
        ensures moments { moments self.new ≡ moments self.old };

    /// What was opened (`fstat`).
    fn stat_file(&mut self, file: &Self::File) -> io::Result<Standing>
        ensures found { IfOk result (λ s. IfSome (disk self.old) (λ d. StandsAs (option_map d.holds (opened file.now)) s)) }
        ensures same { disk self.new ≡ disk self.old }
        ensures moments { moments self.new ≡ moments self.old };

    /// Reads some bytes from a place on, none only at the end (`pread`).
    fn read_at(&mut self, file: &Self::File, at: u64, out: &mut [u8]) -> io::Result<usize>
        requires { 0 < length out.old }
        ensures within { IfOk result (λ n. n ≤ length out.old) }
        ensures read { IfOk result (λ n. IfSome (disk self.old) (λ d. IfSome (opened file.now) (λ number.
            Gives n out.new (drop at (d.holds number))))) }
        ensures same { disk self.new ≡ disk self.old }
        ensures moments { moments self.new ≡ moments self.old };

    /// Makes a file where nothing stands (`open` with `O_CREAT` and `O_EXCL`).
    fn make(&mut self, path: &str) -> io::Result<Self::Part>
        ensures made { IfOk result (λ part. disk self.new ≡ option_map (λ d. made d path.now (writes part)) (disk self.old)) }
        ensures new { IfOk result (λ part. IfSome (disk self.old) (λ d.
            IsNew d (writes part) × (file_at d path.now ≡ None))) }
        ensures same { OnErr result (disk self.new ≡ disk self.old) }
        ensures moments { Passes (Stands (disk self.new)) (moments self.old) (moments self.new) };

    /// Makes a folder, and those above it (`mkdir`).
    fn make_folders(&mut self, path: &str) -> io::Result<()>
        ensures same { disk self.new ≡ disk self.old }
        ensures moments { moments self.new ≡ moments self.old };

    /// Writes some bytes from a place on, which isn't past the end (`pwrite`). Where it fails the file may hold anything.
    fn write_at(&mut self, part: &mut Self::Part, at: u64, piece: &[u8]) -> io::Result<usize>
        requires place { IfSome (disk self.old) (λ d. at ≤ length (d.holds (writes part.old))) }
        requires apart { IfSome (disk self.old) (λ d. IsApart d (writes part.old)) }
        ensures within { IfOk result (λ n. n ≤ length piece.now) }
        ensures written { IfOk result (λ n. disk self.new
            ≡ option_map (λ d. written d (writes part.old) at (take n piece.now)) (disk self.old)) }
        ensures failed { OnErr result ((bytes : List ℕ) × (disk self.new
            ≡ option_map (λ d. with_bytes d (writes part.old) bytes) (disk self.old))) }
        ensures broken_off { IfErr result (λ e. error_kind e ≡ ErrorKind.Interrupted → disk self.new ≡ disk self.old) }
        ensures part { writes part.new ≡ writes part.old }
        ensures moments { Passes (Touches (disk self.old) (writes part.old)) (moments self.old) (moments self.new) };

    /// Waits until the disk has what a file holds (`fdatasync`).
    fn sync(&mut self, part: &Self::Part) -> io::Result<()>
        ensures kept { OnOk result (IfSome (disk self.old) (λ _. kept self.new (writes part.now) ≡ true)) }
        ensures same { disk self.new ≡ disk self.old }
        ensures moments { Passes (Stands (disk self.old)) (moments self.old) (moments self.new) };

    /// Moves a file to a path, in place of another file there (`rename`).
    fn rename(&mut self, from: &str, to: &str) -> io::Result<()>
        requires part { is_object from.now ≡ false }
        requires file { IfSome (disk self.old) (λ d. IsSome (file_at d from.now)) }
        requires settled { IfSome (disk self.old) (λ d. IsSettled d (kept self.old) from.now to.now) }
        requires apart { IfSome (disk self.old) (λ d. file_at d from.now ≢ file_at d to.now) }
        ensures renamed { OnOk result (disk self.new ≡ option_map (λ d. renamed d from.now to.now) (disk self.old)) }
        ensures same { OnErr result (disk self.new ≡ disk self.old) }
        ensures moments { Passes (Stands (disk self.new)) (moments self.old) (moments self.new) };

    /// Takes a path away from its file (`unlink`).
    fn remove(&mut self, path: &str) -> io::Result<()>
        requires { is_object path.now ≡ false }
        ensures removed { OnOk result (disk self.new ≡ option_map (λ d. removed d path.now) (disk self.old)) }
        ensures same { OnErr result (disk self.new ≡ disk self.old) }
        ensures moments { Passes (Stands (disk self.new)) (moments self.old) (moments self.new) };

    /// Opens a folder, to read its names (`open` with `O_DIRECTORY`).
    fn list(&mut self, path: &str) -> io::Result<Self::Names>
        ensures listed { IfOk result (λ names. IfSome (disk self.old) (λ d. Lists d path.now (to_come names))) }
        ensures absent { IfErr result (λ e. IsTrue (says_absent (error_kind e)) →
            IfSome (disk self.old) (λ d. IsLeaf d path.now)) }
        ensures same { disk self.new ≡ disk self.old }
        ensures moments { moments self.new ≡ moments self.old };

    /// The path of the next name, if one is left (`getdents`).
    fn next(&mut self, names: &mut Self::Names) -> io::Result<Option<String>>
        ensures next { IfOk result (λ found. IfSome (disk self.old) (λ _. MatchOption found (to_come names.old ≡ [])
            (λ path. to_come names.old ≡ string_bytes path ∷ to_come names.new))) }
        ensures same { disk self.new ≡ disk self.old }
        ensures moments { moments self.new ≡ moments self.old };
}
