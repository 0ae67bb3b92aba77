//! A store over HTTP.
ghost use Rattle.std.specs.Prelude.{◌≡◌, ◌+◌, ◌<◌, ◌≤◌, ◌^◌, length, take, false, string_bytes, vec_capacity, IfOk, IfSome, IsTrue, OnErr, OnOk, None, Ok, Some};
ghost use Rattle.std.specs.Option.{option_map};
ghost use Rattle.std.specs.FinMap as map;
ghost use Rattle.vol_base.specs.Causes.{HasCause, Rose, counted, is_count};
ghost use Rattle.vol_base.specs.Outside.{KeepsRest, OnlyReads, Reads, asked_after};
ghost use Rattle.remote_store.specs.Bodies.{IsKeptBehind, got_of_kind, stretch_count};
ghost use Rattle.remote_store.specs.Answers.{IsAsked};
ghost use Rattle.remote_store.specs.Dials.{Dials, DialsOnce};
ghost use Rattle.remote_store.specs.Ends.{StoreKeepsEnd};
ghost use Rattle.remote_store.specs.Hosts.{is_host};
ghost use Rattle.remote_store.specs.Quiet.{IsQuietFor};
ghost use Rattle.remote_store.specs.Remotes.{IsJudged, IsPlaced, IsRead, IsSame, IsSize, wanted_of};
ghost use Rattle.remote_store.specs.Requests.{peer_value};
ghost use Rattle.remote_store.specs.Sent.{Requests, SendsRequest, request_bytes};
ghost use Rattle.remote_store.specs.Shown.{IsServed, count_at, key_in, shown};
ghost use Rattle.remote_store.specs.Talks.{SaysLength, SaysPart};
ghost use Rattle.remote_store.specs.declared.wanted.Wanted.TheVariants.{Length, Part};

use crate::calls::{call_length, call_part, find_empty_got, find_got, find_size};
use crate::counts::settle;
use crate::dial::Dial;
use crate::keys::find_key;
use crate::room::{reserve_bytes, reserve_spans, reserve_text, write_peer};
use crate::wanted::Promise;
use httparse::spans::HeaderSpan;
use std::alloc::Global;
use vol_base::{Failed, Got, Name, OutOfMemory, Source};

// How many bytes of a body that isn't wanted are passed over at once.
const SCRATCH: usize = 65536;

/// The objects of a data set of a peer, read by requests over HTTP/1.1.
///
/// One connection is kept over many requests, and dialled anew behind a reply that closes it and behind a call that failed;
/// where it ended meanwhile, the request is sent once more, on a new one. After `new` no call takes memory. Where the dial
/// tells a peer that serves this data set, the objects are that peer's, and the count of faults is the dial's.
#[derive(Drop)]
pub struct Remote<D: Dial> {
    pub dial: D,
    pub host: String,
    pub port: u16,
    pub dataset: Name,
    kept: bool,
    peer: Vec<u8>,
    text: Vec<u8>,
    received: Vec<u8>,
    there: usize,
    body: u64,
    scratch: Vec<u8>,
    spans: Vec<HeaderSpan>,
    asked: u64,
    faults: u64,

    ghost held: { IsTrue kept → IsTrue (D.holds dial) },
    ghost quiet: { IsTrue kept → IsQuietFor dataset (D.peer dial) (D.line dial) },
    ghost named: { length dataset ≤ 512 },
    ghost host_ok: { IsTrue (is_host (string_bytes host)) },
    ghost peer_ok: { peer.items ≡ peer_value (string_bytes host) port },
    ghost text_ok: { 1024 ≤ vec_capacity text },
    ghost received_ok: { length received.items ≡ 8192 },
    ghost there_ok: { there ≤ 8192 },
    ghost scratch_ok: { 0 < length scratch.items },
    ghost spans_ok: { 2730 ≤ length spans.items },
}

impl<D: Dial + Drop> Remote<D> {
    /// The objects of a data set of the peer at a port of a host.
    ///
    /// # Errors
    /// `OutOfMemory`.
    pub fn new(
        alloc: Global,
        dial: D,
        host: String,
        port: u16,
        dataset: &Name,
    ) -> Result<Remote<D>, OutOfMemory>
        requires { IsTrue (is_host (string_bytes host)) }
        ensures dial { IfOk result (λ r. r.dial ≡ dial) }
        ensures dataset { IfOk result (λ r. r.dataset ≡ dataset.now) }
        ensures host { IfOk result (λ r. r.host ≡ host) }
        ensures port { IfOk result (λ r. r.port ≡ port) }
        ensures faults { IfOk result (λ r. r.faults ≡ 0) }
        ensures asked { IfOk result (λ r. r.asked ≡ 0) }
        ensures silent { IfOk result (λ r. (r.there ≡ 0) × (r.body ≡ 0)) }
    {
        let peer = write_peer(alloc, host.as_str(), port)?;
        let text = reserve_text(alloc, 1024)?;
        let received = reserve_bytes(alloc, 8192)?;
        let scratch = reserve_bytes(alloc, SCRATCH)?;
        let spans = reserve_spans(alloc, 2730)?;
        Ok(Remote {
            dial,
            host,
            port,
            dataset: dataset.duplicate(),
            kept: false,
            peer,
            text,
            received,
            there: 0,
            body: 0,
            scratch,
            spans,
            asked: 0,
            faults: 0,
        })
    }
}

impl<D: Dial> Remote<D> {
    /// The first 8,192 bytes that came in the last call.
    pub fn last(&self) -> &[u8]
        ensures { result.now ≡ take self.now.there self.now.received.items }
    {
        &self.received[..self.there]
    }

    /// How many bytes came behind the head of the reply in the last call.
    pub fn body(&self) -> u64
        ensures { result ≡ self.now.body }
    {
        self.body
    }

    // Asks for the length of an object, by its name below the data set.
    fn ask_length(&mut self, key: &Name) -> Result<Promise, Failed>
        requires { length self.old.dataset + 1 + length key.now ≤ 512 }
        ensures told { IfOk result (λ promise.
            SaysLength self.old.dataset (D.peer self.old.dial) key.now (Some promise)) }
        ensures judged { IsJudged Length IsSame (take self.new.there self.new.received.items)
            self.new.body (D.received self.old.dial) (D.received self.new.dial) (D.ends self.old.dial) (D.ends self.new.dial)
            (D.faults self.old.dial) (D.faults self.new.dial) result }
        ensures end { StoreKeepsEnd self.old.dataset (string_bytes self.old.host, self.old.port) self.new.there
            self.new.received.items self.old.kept self.new.kept (D.peer self.old.dial) (D.faults self.old.dial)
            (D.faults self.new.dial) (D.dialled self.old.dial) (D.dialled self.new.dial) result }
        ensures asks { SendsRequest (request_bytes (string_bytes self.old.host, self.old.port) key.now Length)
            (D.sent self.old.dial) (D.sent self.new.dial) result }
        ensures sent { IfOk result (λ _. Requests (string_bytes self.old.host, self.old.port) key.now Length
            self.old.kept (D.peer self.old.dial) (D.line self.old.dial) (D.line self.new.dial)) }
        ensures peer { D.peer self.new.dial ≡ D.peer self.old.dial }
        ensures same { (self.new.dataset ≡ self.old.dataset) × (self.new.asked ≡ self.old.asked) }
        ensures to { (self.new.host ≡ self.old.host) × (self.new.port ≡ self.old.port) }
        ensures cause { HasCause
            (count_at (shown self.old.dataset (D.peer self.old.dial)) (D.faults self.old.dial) self.old.faults)
            (count_at (shown self.old.dataset (D.peer self.new.dial)) (D.faults self.new.dial) self.new.faults) result }
    {
        let answer = call_length(
            &mut self.dial,
            &mut self.kept,
            self.host.as_str(),
            self.port,
            self.peer.as_slice(),
            key,
            &mut self.text,
            self.received.as_mut_slice(),
            &mut self.there,
            &mut self.body,
            self.spans.as_mut_slice(),
        );
        settle(&mut self.faults, answer)
    }

    // Asks for a part of an object, by its name below the data set, and puts what the reply says into a buffer.
    fn ask_part(&mut self, key: &Name, at: u64, out: &mut [u8]) -> Result<Promise, Failed>
        requires key { length self.old.dataset + 1 + length key.now ≤ 512 }
        requires asked { IsAsked (Part at (length out.old)) }
        ensures told { IfOk result (λ promise.
            SaysPart self.old.dataset (D.peer self.old.dial) key.now at out.old out.new (Some promise)) }
        ensures rest { IfOk result (λ promise. KeepsRest out.old out.new
            (got_of_kind promise.kind (stretch_count promise.kind promise.len at (length out.old)))) }
        ensures judged { IsJudged (Part at (length out.old)) (IsPlaced at out.old out.new) (take self.new.there self.new.received.items)
            self.new.body (D.received self.old.dial) (D.received self.new.dial) (D.ends self.old.dial) (D.ends self.new.dial)
            (D.faults self.old.dial) (D.faults self.new.dial) result }
        ensures end { StoreKeepsEnd self.old.dataset (string_bytes self.old.host, self.old.port) self.new.there
            self.new.received.items self.old.kept self.new.kept (D.peer self.old.dial) (D.faults self.old.dial)
            (D.faults self.new.dial) (D.dialled self.old.dial) (D.dialled self.new.dial) result }
        ensures asks { SendsRequest (request_bytes (string_bytes self.old.host, self.old.port) key.now (Part at (length out.old)))
            (D.sent self.old.dial) (D.sent self.new.dial) result }
        ensures sent { IfOk result (λ _. Requests (string_bytes self.old.host, self.old.port) key.now (Part at (length out.old))
            self.old.kept (D.peer self.old.dial) (D.line self.old.dial) (D.line self.new.dial)) }
        ensures peer { D.peer self.new.dial ≡ D.peer self.old.dial }
        ensures same { (self.new.dataset ≡ self.old.dataset) × (self.new.asked ≡ self.old.asked) }
        ensures to { (self.new.host ≡ self.old.host) × (self.new.port ≡ self.old.port) }
        ensures cause { HasCause
            (count_at (shown self.old.dataset (D.peer self.old.dial)) (D.faults self.old.dial) self.old.faults)
            (count_at (shown self.old.dataset (D.peer self.new.dial)) (D.faults self.new.dial) self.new.faults) result }
    {
        let answer = call_part(
            &mut self.dial,
            &mut self.kept,
            self.host.as_str(),
            self.port,
            self.peer.as_slice(),
            key,
            &mut self.text,
            self.received.as_mut_slice(),
            &mut self.there,
            &mut self.body,
            self.scratch.as_mut_slice(),
            self.spans.as_mut_slice(),
            at,
            out,
        );
        settle(&mut self.faults, answer)
    }
}

impl<D: Dial> Source for Remote<D> {
    ghost use Rattle.std.specs.Prelude.{[], None};
    ghost use Rattle.remote_store.specs.Shown.{count_at_is};
    ghost use Rattle.remote_store.specs.ShownBytes.{shown_bytes};

    ghost objects = { λ r. shown r.dataset (D.peer r.dial) };

    ghost draft = { λ r. None };

    ghost history = { λ r. [] };

    ghost asked = { λ r. counted r.asked };

    ghost faults = { λ r. count_at (shown r.dataset (D.peer r.dial)) (D.faults r.dial) r.faults };

    ghost counts = { λ r. (
      is_count r.asked,
      count_at_is (shown r.dataset (D.peer r.dial)) (D.faults r.dial) r.faults (D.counts r.dial).1,
    ) };

    ghost bytes = { λ r. shown_bytes r.dataset (D.peer r.dial) (D.plain r.dial) };

    fn size(&mut self, name: &Name) -> Result<Option<u64>, Failed>
        ensures found { IfOk result (λ size. IfSome (shown self.old.dataset (D.peer self.old.dial)) (λ m.
            size ≡ option_map length (map.get m name.now))) }
        ensures kept { OnlyReads (shown self.old.dataset (D.peer self.old.dial))
            (shown self.new.dataset (D.peer self.new.dial)) None None }
        ensures asked { counted self.new.asked ≡ counted self.old.asked }
        ensures cause { HasCause
            (count_at (shown self.old.dataset (D.peer self.old.dial)) (D.faults self.old.dial) self.old.faults)
            (count_at (shown self.new.dataset (D.peer self.new.dial)) (D.faults self.new.dial) self.new.faults) result }
        ensures judged { IfSome (key_in self.old.dataset name.now) (λ _. IsJudged Length IsSize
            (take self.new.there self.new.received.items)
            self.new.body (D.received self.old.dial) (D.received self.new.dial) (D.ends self.old.dial) (D.ends self.new.dial)
            (D.faults self.old.dial) (D.faults self.new.dial) result) }
        ensures nothing { key_in self.old.dataset name.now ≡ None → self.new.dial ≡ self.old.dial }
        ensures absent { key_in self.old.dataset name.now ≡ None → result ≡ Ok None }
        ensures silent { key_in self.old.dataset name.now ≡ None → (self.new.there ≡ 0) × (self.new.body ≡ 0) }
        ensures dialled { Dials (string_bytes self.old.host, self.old.port) (D.dialled self.old.dial) (D.dialled self.new.dial) }
        // A call that failed though no call of the dial did, and to which nothing came, dialled: that an end was kept is no
        // reason to fail.
        ensures again { OnErr result ((Rose (D.faults self.old.dial) (D.faults self.new.dial) → ⊥) → self.new.there ≡ 0
            → DialsOnce (string_bytes self.old.host, self.old.port) (D.dialled self.old.dial) (D.dialled self.new.dial)) }
        // A peer that is told isn't dialled while an end is kept, and one is kept behind each reply that doesn't close.
        ensures goes_on { IfOk result (λ _. IsTrue self.old.kept → IsServed self.old.dataset (D.peer self.old.dial)
            → D.dialled self.new.dial ≡ D.dialled self.old.dial) }
        ensures kept_end { IfOk result (λ _. IsKeptBehind (take self.new.there self.new.received.items) self.new.kept) }
        ensures dropped { OnErr result (self.new.kept ≡ false) }
        ensures asks { IfSome (key_in self.old.dataset name.now) (λ key. SendsRequest
            (request_bytes (string_bytes self.old.host, self.old.port) key Length)
            (D.sent self.old.dial) (D.sent self.new.dial) result) }
        ensures sent { IfSome (key_in self.old.dataset name.now) (λ key. IfOk result (λ _.
            Requests (string_bytes self.old.host, self.old.port) key Length self.old.kept
            (D.peer self.old.dial) (D.line self.old.dial) (D.line self.new.dial))) }
        ensures stays { (self.new.host ≡ self.old.host) × (self.new.port ≡ self.old.port)
            × (self.new.dataset ≡ self.old.dataset) }
    {
        self.there = 0;
        self.body = 0;
        let _name = name.as_bytes();
        let key = match find_key(&self.dataset, name) {
            Some(key) => key,
            None => return Ok(None),
        };
        match self.ask_length(&key) {
            Ok(promise) => Ok(find_size(promise)),
            Err(failed) => Err(failed),
        }
    }

    fn read_at(&mut self, name: &Name, at: u64, out: &mut [u8]) -> Result<Got, Failed>
        requires { at + length out.old < 2 ^ 64 }
        ensures read { IfOk result (λ got. IfSome (shown self.old.dataset (D.peer self.old.dial)) (λ m.
            Reads (map.get m name.now) at out.old out.new got)) }
        ensures rest { IfOk result (KeepsRest out.old out.new) }
        ensures kept { OnlyReads (shown self.old.dataset (D.peer self.old.dial))
            (shown self.new.dataset (D.peer self.new.dial)) None None }
        ensures asked { OnOk result (counted self.new.asked ≡ asked_after (counted self.old.asked) (length out.old)) }
        ensures asked_err { OnErr result ((counted self.old.asked ≤ counted self.new.asked) ×
            (counted self.new.asked ≤ counted self.old.asked + length out.old)) }
        ensures cause { HasCause
            (count_at (shown self.old.dataset (D.peer self.old.dial)) (D.faults self.old.dial) self.old.faults)
            (count_at (shown self.new.dataset (D.peer self.new.dial)) (D.faults self.new.dial) self.new.faults) result }
        ensures judged { IfSome (key_in self.old.dataset name.now) (λ _. IsJudged (wanted_of at (length out.old)) (IsRead at out.old out.new)
            (take self.new.there self.new.received.items)
            self.new.body (D.received self.old.dial) (D.received self.new.dial) (D.ends self.old.dial) (D.ends self.new.dial)
            (D.faults self.old.dial) (D.faults self.new.dial) result) }
        ensures nothing { key_in self.old.dataset name.now ≡ None → self.new.dial ≡ self.old.dial }
        ensures absent { key_in self.old.dataset name.now ≡ None → (result ≡ Ok Got.Absent) × (out.new ≡ out.old) }
        ensures silent { key_in self.old.dataset name.now ≡ None → (self.new.there ≡ 0) × (self.new.body ≡ 0) }
        ensures dialled { Dials (string_bytes self.old.host, self.old.port) (D.dialled self.old.dial) (D.dialled self.new.dial) }
        ensures again { OnErr result ((Rose (D.faults self.old.dial) (D.faults self.new.dial) → ⊥) → self.new.there ≡ 0
            → DialsOnce (string_bytes self.old.host, self.old.port) (D.dialled self.old.dial) (D.dialled self.new.dial)) }
        ensures goes_on { IfOk result (λ _. IsTrue self.old.kept → IsServed self.old.dataset (D.peer self.old.dial)
            → D.dialled self.new.dial ≡ D.dialled self.old.dial) }
        ensures kept_end { IfOk result (λ _. IsKeptBehind (take self.new.there self.new.received.items) self.new.kept) }
        ensures dropped { OnErr result (self.new.kept ≡ false) }
        ensures asks { IfSome (key_in self.old.dataset name.now) (λ key. SendsRequest
            (request_bytes (string_bytes self.old.host, self.old.port) key (wanted_of at (length out.old)))
            (D.sent self.old.dial) (D.sent self.new.dial) result) }
        ensures sent { IfSome (key_in self.old.dataset name.now) (λ key. IfOk result (λ _.
            Requests (string_bytes self.old.host, self.old.port) key (wanted_of at (length out.old)) self.old.kept
            (D.peer self.old.dial) (D.line self.old.dial) (D.line self.new.dial))) }
        ensures stays { (self.new.host ≡ self.old.host) × (self.new.port ≡ self.old.port)
            × (self.new.dataset ≡ self.old.dataset) }
    {
        self.there = 0;
        self.body = 0;
        let count = out.len() as u64;
        self.asked = self.asked.saturating_add(count);
        let _name = name.as_bytes();
        let key = match find_key(&self.dataset, name) {
            Some(key) => key,
            None => return Ok(Got::Absent),
        };
        if count == 0 {
            return match self.ask_length(&key) {
                Ok(promise) => Ok(find_empty_got(promise)),
                Err(failed) => Err(failed),
            };
        }
        match self.ask_part(&key, at, out) {
            Ok(promise) => Ok(find_got(promise, at, count)),
            Err(failed) => Err(failed),
        }
    }
}
