//! Bytes that were read ahead.
ghost use Rattle.std.specs.Prelude.{◌≡◌, ◌<◌, ◌≤◌, ◌++◌, [], min, length, take, drop, IfOk, IfSome, OnErr, true, ◌↔◌};
ghost use Rattle.std.specs.Option.{option_map};
ghost use Rattle.vol_base.specs.Outside.{Gives};
ghost use Rattle.pipes.specs.Left.{left_of};

use crate::pieces::give_front;
use crate::pipe::PipeIn;
use std::alloc::Global;
use std::io::ErrorKind;
use std::marker::Model;
use vol_base::Failed;

// How many bytes are read ahead at most: as many as a pipe of the system holds.
const MOST_AHEAD: usize = 65536;

// A read of fewer bytes is small.
const SMALL: usize = 4096;

// So many small reads in a row aren't read ahead: a stream begins with three of them, and between two large boxes are two.
const FEW: u32 = 3;

/// Bytes that were read ahead and not handed on, in a buffer that is made at its first use, and how many small reads came
/// in a row. It is seen as these bytes.
#[derive(Drop)]
pub(crate) struct Ahead {
    alloc: Global,
    bytes: Vec<u8>,
    taken: usize,
    end: usize,
    small: u32,
}

impl Model for Ahead {
    ghost use Rattle.std.specs.Prelude.{ℕ, List, drop, take};

    ghost Value = { List ℕ };

    ghost view = { λ a. drop a.taken (take a.end a.bytes.items) };
}

// The bytes between two places of a buffer.
fn between(bytes: &[u8], from: usize, to: usize) -> &[u8]
    ensures { result.now ≡ drop from (take to bytes.now) }
{
    let to = to.min(bytes.len());
    if from >= to {
        return &[];
    }
    &bytes[from..to]
}

// A buffer of so many bytes, or of none where there is no memory for them.
fn make_buffer(alloc: Global, len: usize) -> Vec<u8> {
    match vec![in alloc; 0u8; len] {
        Ok(bytes) => bytes,
        Err(_) => Vec::new(alloc),
    }
}

impl Ahead {
    /// Nothing was read ahead.
    pub(crate) fn new(alloc: Global) -> Ahead
        ensures { result ≡ [] }
    {
        Ahead {
            alloc,
            bytes: Vec::new(alloc),
            taken: 0,
            end: 0,
            small: 0,
        }
    }

    /// Whether nothing is left of what was read ahead.
    pub(crate) fn is_empty(&self) -> bool
        ensures { result ≡ true ↔ self.now ≡ [] }
    {
        between(&self.bytes, self.taken, self.end).is_empty()
    }

    /// Notes a read of so many bytes. Whether it is one of several small ones in a row.
    pub(crate) fn note_read(&mut self, len: usize) -> bool
        ensures { self.new ≡ self.old }
    {
        if len < SMALL {
            self.small = self.small.saturating_add(1);
        } else {
            self.small = 0;
        }
        self.small > FEW
    }

    /// Hands on the front of what was read ahead, as far as there is room, and answers how many bytes.
    pub(crate) fn hand_on(&mut self, out: &mut [u8]) -> usize
        ensures count { result ≡ min (length self.old) (length out.old) }
        ensures bytes { take result out.new ≡ take result self.old }
        ensures rest { self.new ≡ drop result self.old }
    {
        let most = out.len();
        let n = give_front(between(&self.bytes, self.taken, self.end), most, out);
        self.taken = self.taken.saturating_add(n);
        n
    }

    /// Reads ahead what comes of a pipe at once, as far as there is room, and hands on the front of that. Where there is no
    /// memory for a buffer nothing is read ahead.
    #[tactic(auto, using(crate::proofs::AheadSteps::left_alone, crate::proofs::AheadSteps::given_on, crate::proofs::AheadSteps::left_on))]
    pub(crate) fn read_on<P: PipeIn>(
        &mut self,
        pipe: &mut P,
        out: &mut [u8],
    ) -> Result<usize, Failed>
        requires none { self.old ≡ [] }
        requires some { 0 < length out.old }
        ensures within { IfOk result (λ n. n ≤ length out.old) }
        ensures read { IfOk result (λ n. IfSome (P.coming pipe.old) (Gives n out.new)) }
        ensures left { IfOk result (λ n. left_of self.new (P.coming pipe.new) ≡ option_map (drop n) (P.coming pipe.old)) }
        ensures refused { OnErr result (P.coming pipe.new ≡ P.coming pipe.old) }
        ensures none { OnErr result (self.new ≡ []) }
    {
        if self.bytes.is_empty() {
            self.bytes = make_buffer(self.alloc, MOST_AHEAD);
        }
        if self.bytes.is_empty() {
            return read_some(pipe, out);
        }
        self.taken = 0;
        self.end = 0;
        self.end = read_some(pipe, self.bytes.as_mut_slice())?;
        Ok(self.hand_on(out))
    }
}

/// Reads some bytes and answers how many, and none only at the end. What a signal broke off is tried again.
pub(crate) fn read_some<P: PipeIn>(pipe: &mut P, out: &mut [u8]) -> Result<usize, Failed>
    requires { 0 < length out.old }
    ensures within { IfOk result (λ n. n ≤ length out.old) }
    ensures read { IfOk result (λ n. IfSome (P.coming pipe.old) (Gives n out.new)) }
    ensures taken { IfOk result (λ n. P.coming pipe.new ≡ option_map (drop n) (P.coming pipe.old)) }
    ensures refused { OnErr result (P.coming pipe.new ≡ P.coming pipe.old) }
{
    for _ in 0..u64::MAX {
        match pipe.read(out) {
            Ok(given) => return Ok(given),
            Err(error) if error.kind() == ErrorKind::Interrupted => {}
            Err(_) => return Err(Failed),
        }
    }
    Err(Failed)
}
