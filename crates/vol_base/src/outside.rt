//! The outside, as traits.
//!
//! Each trait says by ghost members what an implementation means. A meaning of contents is `None`
//! where the implementation doesn't tell it, as over a real file. Each object has a count of its
//! faults that never falls, and a call answers `Failed` only where the count rose in that call.
ghost use Rattle.std.specs.Prelude.{◌≡◌, ◌≢◌, ◌+◌, ◌<◌, ◌≤◌, ◌^◌, [], ◌∷◌, ◌++◌, List, take, drop, Option, Some, None, ℕ, length, IfOk, IfSome, OnOk, OnErr, IsSome, IsTrue};
ghost use Rattle.std.specs.Option.{option_map};
ghost use Rattle.std.specs.FinMap as map;
ghost use Rattle.vol_base.specs.Causes.{HasCause, HasCauseOf, IsCount};
ghost use Rattle.vol_base.specs.Outside.{Objects, Draft, Ended, Notes, HaveBytes, IsCourse, IsTold, Gives, KeepsRest, OnlyReads, Reads, Turns, asked_after, any_under, begun, appended, patched, finished};

use crate::Name;

/// A call that failed for a reason outside the program; the object's count of faults rose.
#[derive(Clone, Copy, Debug, PartialEq, Eq)]
pub struct Failed;

/// Want of memory.
#[derive(Clone, Copy, Debug, PartialEq, Eq)]
pub struct OutOfMemory;

/// Why a store refused to write.
#[derive(Clone, Copy, Debug, PartialEq, Eq)]
pub enum StoreRefusal {
    Failed,
    OutOfMemory,
}

/// What a read found: no such object, or so many bytes.
#[derive(Clone, Copy, Debug, PartialEq, Eq)]
pub enum Got {
    Absent,
    Bytes(u64),
}

/// Objects under names, read by byte ranges.
pub trait Source {
    /// The objects, where the source tells them.
    ghost objects: { Self → Option Objects };

    /// The object being written. None for a source that is no store.
    ghost draft: { Self → Option Draft };

    /// The objects that stood so far at each moment that is told, in order. Empty for a source that is no store.
    ghost history: { Self → List Objects };

    /// How many bytes were asked for by reads. It stands still at 2^64 - 1.
    ghost asked: { Self → ℕ };

    /// How often a call failed. It stands still at 2^64 - 1.
    ghost faults: { Self → ℕ };

    /// The length of an object in bytes, or None exactly where there is no such object.
    fn size(&mut self, name: &Name) -> Result<Option<u64>, Failed>
        ensures found { IfOk result (λ size. IfSome (objects self.old) (λ m.
            size ≡ option_map length (map.get m name.now))) }
        ensures kept { OnlyReads (objects self.old) (objects self.new) (draft self.old) (draft self.new) }
        ensures history { history self.new ≡ history self.old }
        ensures asked { asked self.new ≡ asked self.old }
        ensures cause { HasCause (faults self.old) (faults self.new) result };

    /// Reads an object from the byte `at` on, into the front of `out`, until `out` is full or the
    /// object ends.
    fn read_at(&mut self, name: &Name, at: u64, out: &mut [u8]) -> Result<Got, Failed>
        requires { at + length out.old < 2 ^ 64 }
        ensures read { IfOk result (λ got. IfSome (objects self.old) (λ m.
            Reads (map.get m name.now) at out.old out.new got)) }
        ensures rest { IfOk result (KeepsRest out.old out.new) }
        ensures kept { OnlyReads (objects self.old) (objects self.new) (draft self.old) (draft self.new) }
        ensures history { history self.new ≡ history self.old }
        ensures asked { OnOk result (asked self.new ≡ asked_after (asked self.old) (length out.old)) }
        ensures asked_err { OnErr result ((asked self.old ≤ asked self.new) ×
            (asked self.new ≤ asked self.old + length out.old)) }
        ensures cause { HasCause (faults self.old) (faults self.new) result };

    /// Both counts are at most 2^64 - 1.
    ghost counts: { (s : Self) → IsCount (asked s) × IsCount (faults s) };

    /// Objects that are told hold bytes.
    ghost bytes: { (s : Self) → IfSome (objects s) HaveBytes };
}

/// A source that objects can be put into, one being written at a time.
pub trait Store: Source {
    /// Whether some object's name begins with the folder and `/`.
    fn any_under(&mut self, folder: &Name) -> Result<bool, Failed>
        ensures found { IfOk result (λ found. IfSome (Self.objects self.old) (λ m.
            found ≡ any_under m folder.now)) }
        ensures kept { OnlyReads (Self.objects self.old) (Self.objects self.new) (Self.draft self.old)
            (Self.draft self.new) }
        ensures history { Self.history self.new ≡ Self.history self.old }
        ensures asked { Self.asked self.new ≡ Self.asked self.old }
        ensures cause { HasCause (Self.faults self.old) (Self.faults self.new) result };

    /// Drops the object being written, and starts an empty one.
    fn begin(&mut self, name: &Name) -> Result<(), StoreRefusal>
        ensures begun { OnOk result (Self.draft self.new ≡ Some (begun (Self.objects self.old) name.now)) }
        ensures refused { OnErr result (Self.draft self.new ≡ None) }
        ensures objects { Self.objects self.new ≡ Self.objects self.old }
        ensures history { Turns (Self.objects self.old) (Self.objects self.new) (Self.history self.old)
            (Self.history self.new) }
        ensures asked { Self.asked self.new ≡ Self.asked self.old }
        ensures cause { HasCauseOf StoreRefusal.Failed (Self.faults self.old) (Self.faults self.new) result };

    /// Puts bytes behind those of the object being written. After a refusal none is being written.
    fn append(&mut self, piece: &[u8]) -> Result<(), StoreRefusal>
        requires { IsSome (Self.draft self.old) }
        ensures appended { OnOk result (Self.draft self.new
            ≡ option_map (λ d. appended d piece.now) (Self.draft self.old)) }
        ensures refused { OnErr result (Self.draft self.new ≡ None) }
        ensures objects { Self.objects self.new ≡ Self.objects self.old }
        ensures history { Turns (Self.objects self.old) (Self.objects self.new) (Self.history self.old)
            (Self.history self.new) }
        ensures asked { Self.asked self.new ≡ Self.asked self.old }
        ensures cause { HasCauseOf StoreRefusal.Failed (Self.faults self.old) (Self.faults self.new) result };

    /// Overwrites bytes of the object being written, from the byte `at` on. After a refusal none
    /// is being written.
    fn patch_front(&mut self, at: u64, piece: &[u8]) -> Result<(), StoreRefusal>
        requires written { IsSome (Self.draft self.old) }
        requires within { IfSome (Self.draft self.old) (λ d. at + length piece.now ≤ d.len) }
        ensures patched { OnOk result (Self.draft self.new
            ≡ option_map (λ d. patched d at piece.now) (Self.draft self.old)) }
        ensures refused { OnErr result (Self.draft self.new ≡ None) }
        ensures objects { Self.objects self.new ≡ Self.objects self.old }
        ensures history { Turns (Self.objects self.old) (Self.objects self.new) (Self.history self.old)
            (Self.history self.new) }
        ensures asked { Self.asked self.new ≡ Self.asked self.old }
        ensures cause { HasCauseOf StoreRefusal.Failed (Self.faults self.old) (Self.faults self.new) result };

    /// Puts the object being written among the objects, in place of one of its name. Afterwards
    /// none is being written.
    fn finish(&mut self) -> Result<(), StoreRefusal>
        requires { IsSome (Self.draft self.old) }
        ensures finished { OnOk result (IfSome (Self.draft self.old) (λ d.
            Self.objects self.new ≡ option_map (finished d.told) (Self.objects self.old))) }
        ensures draft { Self.draft self.new ≡ None }
        ensures refused { OnErr result (Self.objects self.new ≡ Self.objects self.old) }
        ensures history { Turns (Self.objects self.old) (Self.objects self.new) (Self.history self.old)
            (Self.history self.new) }
        ensures asked { Self.asked self.new ≡ Self.asked self.old }
        ensures cause { HasCauseOf StoreRefusal.Failed (Self.faults self.old) (Self.faults self.new) result };

    /// A store that tells its objects tells the object being written too, and bytes that are told
    /// have the length that is told.
    ghost tells: { (s : Self) → IfSome (Self.draft s) (IsTold (Self.objects s)) };
}

/// Bytes that come in, once and in order.
pub trait Feed {
    /// The bytes that are left, where they are told.
    ghost left: { Self → Option (List ℕ) };

    /// How often a call failed. It stands still at 2^64 - 1.
    ghost faults: { Self → ℕ };

    /// Takes some bytes of what is left, at least one unless nothing is left; 0 only at the end.
    fn read(&mut self, out: &mut [u8]) -> Result<usize, Failed>
        requires { 0 < length out.old }
        ensures within { IfOk result (λ n. n ≤ length out.old) }
        ensures read { IfOk result (λ n. IfSome (left self.old) (Gives n out.new)) }
        ensures left { IfOk result (λ n. left self.new ≡ option_map (drop n) (left self.old)) }
        ensures refused { OnErr result (left self.new ≡ left self.old) }
        ensures cause { HasCause (faults self.old) (faults self.new) result };

    /// The count of faults is at most 2^64 - 1.
    ghost counts: { (s : Self) → IsCount (faults s) };
}

/// Bytes that go out, in order.
pub trait Outlet {
    /// The bytes that were written, where they are told.
    ghost written: { Self → Option (List ℕ) };

    /// How often a call failed. It stands still at 2^64 - 1.
    ghost faults: { Self → ℕ };

    /// Takes some bytes from the front of a piece, at least one.
    fn write(&mut self, piece: &[u8]) -> Result<usize, Failed>
        requires { 0 < length piece.now }
        ensures some { IfOk result (λ n. (0 < n) × (n ≤ length piece.now)) }
        ensures written { IfOk result (λ n. written self.new
            ≡ option_map (λ w. w ++ take n piece.now) (written self.old)) }
        ensures refused { OnErr result (written self.new ≡ written self.old) }
        ensures cause { HasCause (faults self.old) (faults self.new) result };

    /// The count of faults is at most 2^64 - 1.
    ghost counts: { (s : Self) → IsCount (faults s) };
}

/// A connection to a peer.
pub trait Link {
    /// The whole incoming stream, what is left of it, and what was sent, where they are told.
    ghost stream: { Self → Option (List ℕ) };

    ghost left: { Self → Option (List ℕ) };

    ghost sent: { Self → Option (List ℕ) };

    /// How often a call failed. It stands still at 2^64 - 1.
    ghost faults: { Self → ℕ };

    /// Takes some bytes of what is left, at least one unless nothing is left; 0 only at the end.
    fn recv(&mut self, out: &mut [u8]) -> Result<usize, Failed>
        requires { 0 < length out.old }
        ensures within { IfOk result (λ n. n ≤ length out.old) }
        ensures read { IfOk result (λ n. IfSome (left self.old) (Gives n out.new)) }
        ensures left { IfOk result (λ n. left self.new ≡ option_map (drop n) (left self.old)) }
        ensures refused { OnErr result (left self.new ≡ left self.old) }
        ensures sent { sent self.new ≡ sent self.old }
        ensures stream { stream self.new ≡ stream self.old }
        ensures cause { HasCause (faults self.old) (faults self.new) result };

    /// Sends some bytes from the front of a piece, at least one.
    fn send(&mut self, piece: &[u8]) -> Result<usize, Failed>
        requires { 0 < length piece.now }
        ensures some { IfOk result (λ n. (0 < n) × (n ≤ length piece.now)) }
        ensures sent { IfOk result (λ n. sent self.new
            ≡ option_map (λ w. w ++ take n piece.now) (sent self.old)) }
        ensures refused { OnErr result (sent self.new ≡ sent self.old) }
        ensures left { left self.new ≡ left self.old }
        ensures stream { stream self.new ≡ stream self.old }
        ensures cause { HasCause (faults self.old) (faults self.new) result };

    /// The count of faults is at most 2^64 - 1.
    ghost counts: { (s : Self) → IsCount (faults s) };

    /// What is left is the end of the stream, and the three are told together.
    ghost course: { (s : Self) → IsCourse (stream s) (left s) (sent s) };
}

/// A place where peers connect.
pub trait Door {
    /// The end of a connection: what is received of a peer, and sent to it.
    type End: Link;

    /// The port that was bound, where a listen succeeded.
    ghost bound: { Self → Option ℕ };

    /// How many ends were given.
    ghost accepted: { Self → ℕ };

    /// The ends that were closed, in order, where they are told: the stream, the sent bytes and
    /// the count of faults of each.
    ghost served: { Self → Option (List Ended) };

    /// How often a call failed. It stands still at 2^64 - 1.
    ghost faults: { Self → ℕ };

    /// Binds a port, or any free one for 0, and answers which.
    fn listen(&mut self, port: u16) -> Result<u16, Failed>
        requires { bound self.old ≡ None }
        ensures bound { IfOk result (λ port. bound self.new ≡ Some port) }
        ensures asked { IfOk result (λ bound. port ≢ 0 → bound ≡ port) }
        ensures refused { OnErr result (bound self.new ≡ None) }
        ensures served { served self.new ≡ served self.old }
        ensures accepted { accepted self.new ≡ accepted self.old }
        ensures cause { HasCause (faults self.old) (faults self.new) result };

    /// Gives the next peer's end, on which nothing was received or sent. A door that tells the ends that
    /// were closed gives ends that tell what they are.
    fn accept(&mut self) -> Result<Self::End, Failed>
        requires { IsSome (bound self.old) }
        ensures fresh { IfOk result (λ end. (Self.End.left end ≡ Self.End.stream end) ×
            (Self.End.sent end ≡ option_map (λ _. []) (Self.End.stream end)) × (Self.End.faults end ≡ 0)) }
        ensures told { IfOk result (λ end. IsSome (served self.old) → IsSome (Self.End.stream end)) }
        ensures accepted { OnOk result (accepted self.new ≡ accepted self.old + 1) }
        ensures refused { OnErr result (accepted self.new ≡ accepted self.old) }
        ensures bound { bound self.new ≡ bound self.old }
        ensures served { served self.new ≡ served self.old }
        ensures cause { HasCause (faults self.old) (faults self.new) result };

    /// Drops a connection, and notes it where this door gave more ends than it has noted: so of the ends that it
    /// gave, each once. To note an end of some other door would take memory that isn't there.
    fn close(&mut self, end: Self::End)
        ensures served { Notes (served self.old) (accepted self.old) (Self.End.stream end) (Self.End.sent end)
            (Self.End.faults end) (served self.new) }
        ensures accepted { accepted self.new ≡ accepted self.old }
        ensures bound { bound self.new ≡ bound self.old }
        ensures faults { faults self.new ≡ faults self.old };

    /// The count of faults is at most 2^64 - 1.
    ghost counts: { (s : Self) → IsCount (faults s) };

    /// No more ends are noted than were given.
    ghost notes: { (s : Self) → IfSome (served s) (λ list. length list ≤ accepted s) };
}

/// What a worker just did.
#[derive(Clone, Copy, Debug, PartialEq, Eq)]
pub enum Moment {
    Claimed,
    Deposited,
}

/// Is told of each moment of each worker. A test's gate may wait there.
pub trait Gate {
    /// The worker on a seat just did this with a job; seats and jobs are counted from 0.
    fn at(&self, seat: u32, job: u64, moment: Moment);
}

/// The gate that does nothing.
#[derive(Clone, Copy)]
pub struct FreeGate;

impl Gate for FreeGate {
    fn at(&self, _seat: u32, _job: u64, _moment: Moment) {}
}
