//! A peer in memory, which serves objects.
ghost use Rattle.std.specs.Prelude.{◌≡◌, ◌+◌, ◌-◌, ◌<◌, ◌≤◌, ◌++◌, ◌∷◌, [], Some, None, List, ℕ, IfOk, OnErr, OnOk, length, take, drop, min};
ghost use Rattle.vol_base.specs.Causes.{HasCause, counted, is_count};
ghost use Rattle.vol_base.specs.Outside.{Gives};
ghost use Rattle.peer_dial.specs.Shelves.{HasReplies, dialled_on, objects_on};

use crate::entry::{Address, Entry};
use crate::serving::{clear, send_more};
use remote_store::Dial;
use std::alloc::Global;
use vol_base::{Failed, Name, OutOfMemory};

/// A peer that serves objects in memory under a data set, as `range_server` does, and tells them. A receive gives at most
/// `piece` bytes, and the calls with some numbers fail. Want of memory is a fault too.
#[derive(Drop)]
pub struct PeerDial {
    alloc: Global,
    pub entries: Vec<Entry>,
    pub dataset: Name,
    piece: usize,
    failing: Vec<u64>,
    calls: u64,
    ends: u64,
    faults: u64,
    held: bool,
    sent: Vec<u8>,
    all_sent: Vec<u8>,
    replies: Vec<u8>,
    given: Vec<u8>,
    received: Vec<u8>,
    dialled: Vec<Address>,

    ghost some: { 0 < piece },
    ghost served: { HasReplies (objects_on entries.items) dataset sent.items replies.items },
}

// Whether the next call is one that is to fail.
fn tick(calls: &mut u64, faults: &mut u64, failing: &[u64]) -> Result<(), Failed>
    ensures { HasCause (counted faults.old) (counted faults.new) result }
{
    let call = *calls;
    *calls = calls.saturating_add(1);
    if failing.contains(&call) {
        *faults = faults.saturating_add(1);
        return Err(Failed);
    }
    Ok(())
}

// Puts the front of some bytes in front of a buffer, as far as there is room, and answers how many.
fn give_front(left: &[u8], out: &mut [u8]) -> usize
    ensures count { result ≡ min (length left.now) (length out.old) }
    ensures bytes { take result out.new ≡ take result left.now }
{
    let n = left.len().min(out.len());
    out[..n].copy_from_slice(&left[..n]);
    n
}

// Gives the next bytes of the replies, at most `piece`.
fn give_piece(replies: &[u8], given: usize, piece: usize, out: &mut [u8]) -> usize
    requires piece { 0 < piece }
    requires room { 0 < length out.old }
    ensures within { result ≤ length out.old }
    ensures short { result ≤ piece }
    ensures gives { Gives result out.new (drop given replies.now) }
{
    let at = given.min(replies.len());
    let most = piece.min(out.len());
    give_front(&replies[at..], &mut out[..most])
}

// Keeps bytes that were given, on the end and in all.
fn keep_given(given: &mut Vec<u8>, received: &mut Vec<u8>, bytes: &[u8]) -> Result<(), OutOfMemory>
    ensures given { OnOk result (given.new.items ≡ given.old.items ++ bytes.now) }
    ensures received { OnOk result (received.new.items ≡ received.old.items ++ bytes.now) }
    ensures refused { OnErr result (received.new.items ≡ received.old.items) }
{
    if given.extend_from_slice(bytes).is_err() {
        return Err(OutOfMemory);
    }
    match received.extend_from_slice(bytes) {
        Ok(()) => Ok(()),
        Err(_) => Err(OutOfMemory),
    }
}

// Keeps bytes that were sent.
fn keep_sent(all_sent: &mut Vec<u8>, bytes: &[u8]) -> Result<(), OutOfMemory>
    ensures sent { OnOk result (all_sent.new.items ≡ all_sent.old.items ++ bytes.now) }
    ensures refused { OnErr result (all_sent.new.items ≡ all_sent.old.items) }
{
    match all_sent.extend_from_slice(bytes) {
        Ok(()) => Ok(()),
        Err(_) => Err(OutOfMemory),
    }
}

// Sends a piece on the end, and keeps it.
fn send_kept(
    alloc: Global,
    entries: &[Entry],
    dataset: &Name,
    sent: &mut Vec<u8>,
    all_sent: &mut Vec<u8>,
    replies: &mut Vec<u8>,
    piece: &[u8],
) -> Result<(), OutOfMemory>
    requires { HasReplies (objects_on entries.now) dataset.now sent.old.items replies.old.items }
    ensures sent { OnOk result (sent.new.items ≡ sent.old.items ++ piece.now) }
    ensures all { OnOk result (all_sent.new.items ≡ all_sent.old.items ++ piece.now) }
    ensures refused { OnErr result (all_sent.new.items ≡ all_sent.old.items) }
    ensures replies { HasReplies (objects_on entries.now) dataset.now sent.new.items replies.new.items }
{
    match send_more(alloc, entries, dataset, sent, replies, piece) {
        Ok(()) => keep_sent(all_sent, piece),
        Err(refused) => Err(refused),
    }
}

// Keeps that a port of a host was dialled.
fn keep_address(
    alloc: Global,
    dialled: &mut Vec<Address>,
    host: &str,
    port: u16,
) -> Result<(), OutOfMemory>
    ensures ok { OnOk result (dialled_on dialled.new.items ≡ dialled_on dialled.old.items ++ (host.now, port) ∷ []) }
    ensures err { OnErr result (dialled_on dialled.new.items ≡ dialled_on dialled.old.items) }
{
    let Ok(host) = String::from_str(alloc, host) else {
        return Err(OutOfMemory);
    };
    match dialled.push(Address { host, port }) {
        Ok(()) => Ok(()),
        Err(_) => Err(OutOfMemory),
    }
}

impl PeerDial {
    /// A peer that serves these objects, of which the first of a name counts. Nothing was dialled.
    pub fn new(
        alloc: Global,
        entries: Vec<Entry>,
        dataset: Name,
        piece: usize,
        failing: Vec<u64>,
    ) -> PeerDial
        requires { 0 < piece }
        ensures entries { result.entries ≡ entries }
        ensures dataset { result.dataset ≡ dataset }
        ensures received { result.received.items ≡ [] }
        ensures dialled { dialled_on result.dialled.items ≡ [] }
        ensures faults { result.faults ≡ 0 }
    {
        let mut sent = Vec::new(alloc);
        let mut replies = Vec::new(alloc);
        clear(entries.as_slice(), &dataset, &mut sent, &mut replies);
        PeerDial {
            alloc,
            entries,
            dataset,
            piece,
            failing,
            calls: 0,
            ends: 0,
            faults: 0,
            held: false,
            sent,
            all_sent: Vec::new(alloc),
            replies,
            given: Vec::new(alloc),
            received: Vec::new(alloc),
            dialled: Vec::new(alloc),
        }
    }

    /// All bytes that were sent, on whichever end.
    pub fn sent(&self) -> &[u8]
        ensures { result.now ≡ self.now.all_sent.items }
    {
        self.all_sent.as_slice()
    }

    /// How often it was dialled.
    pub fn dials(&self) -> usize
        ensures { result ≡ length (dialled_on self.now.dialled.items) }
    {
        self.dialled.len()
    }
}

impl Dial for PeerDial {
    ghost use Rattle.peer_dial.specs.ShelfLaws.{served_law, shelf_plain};

    ghost holds = { λ d. d.held };

    ghost left = { λ d. Some (drop (length d.given.items) d.replies.items) };

    ghost received = { λ d. Some d.received.items };

    ghost sent = { λ d. Some d.all_sent.items };

    ghost peer = { λ d. Some (record { objects = objects_on d.entries.items; dataset = d.dataset }) };

    ghost line = { λ d. Some (record { sent = d.sent.items; given = d.given.items }) };

    ghost dialled = { λ d. Some (dialled_on d.dialled.items) };

    ghost ends = { λ d. counted d.ends };

    ghost faults = { λ d. counted d.faults };

    ghost counts = { λ d. (is_count d.ends, is_count d.faults) };

    ghost replies = { λ d. served_law (objects_on d.entries.items) d.dataset d.sent.items d.given.items d.replies.items d.served };

    ghost plain = { λ d. shelf_plain d.entries.items d.dataset };

    fn dial(&mut self, host: &str, port: u16) -> Result<(), Failed> {
        self.held = false;
        self.given.clear();
        clear(
            self.entries.as_slice(),
            &self.dataset,
            &mut self.sent,
            &mut self.replies,
        );
        match tick(&mut self.calls, &mut self.faults, self.failing.as_slice()) {
            Ok(()) => {}
            Err(failed) => return Err(failed),
        }
        match keep_address(self.alloc, &mut self.dialled, host, port) {
            Ok(()) => {
                self.held = true;
                Ok(())
            }
            Err(_) => {
                self.faults = self.faults.saturating_add(1);
                Err(Failed)
            }
        }
    }

    fn recv(&mut self, out: &mut [u8]) -> Result<usize, Failed> {
        match tick(&mut self.calls, &mut self.faults, self.failing.as_slice()) {
            Ok(()) => {}
            Err(failed) => return Err(failed),
        }
        let n = give_piece(self.replies.as_slice(), self.given.len(), self.piece, out);
        match keep_given(&mut self.given, &mut self.received, &out[..n]) {
            Ok(()) => {
                if n == 0 {
                    self.ends = self.ends.saturating_add(1);
                }
                Ok(n)
            }
            Err(_) => {
                self.faults = self.faults.saturating_add(1);
                Err(Failed)
            }
        }
    }

    fn send(&mut self, piece: &[u8]) -> Result<usize, Failed> {
        match tick(&mut self.calls, &mut self.faults, self.failing.as_slice()) {
            Ok(()) => {}
            Err(failed) => return Err(failed),
        }
        match send_kept(
            self.alloc,
            self.entries.as_slice(),
            &self.dataset,
            &mut self.sent,
            &mut self.all_sent,
            &mut self.replies,
            piece,
        ) {
            Ok(()) => Ok(piece.len()),
            Err(_) => {
                self.faults = self.faults.saturating_add(1);
                Err(Failed)
            }
        }
    }
}
