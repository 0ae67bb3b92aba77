//! A store in memory.
ghost use Rattle.std.specs.Prelude.{◌≡◌, ◌+◌, ◌<◌, ◌≤◌, ◌^◌, ◌∷◌, ◌++◌, [], Some, None, ℕ, length, IfOk, IfSome, OnOk, OnErr, IsSome, IsTrue};
ghost use Rattle.std.specs.Option.{option_map};
ghost use Rattle.std.specs.FinMap as map;
ghost use Rattle.vol_base.specs.Stored.{objects_of};
ghost use Rattle.std.specs.Prelude.{◌↔◌, IsErr, IfErr, nat_eq, List, drop};
ghost use Rattle.std.specs.List.{list_any};
ghost use Rattle.vol_base.specs.Causes.{HasCause, HasCauseOf, counted, is_count};
ghost use Rattle.vol_base.specs.Outside.{KeepsRest, OnlyReads, Reads, part, asked_after, is_under, any_under, begun, appended, patched, finished, overwritten};

use crate::calls::tick;
use crate::object::{Object, Unfinished};
use crate::{Failed, Got, Name, OutOfMemory, Source, Store, StoreRefusal, tell_bytes};
use std::alloc::{AllocError, Global};

// The bytes of the newest object of this name.
fn lookup<'a>(objects: &'a [Object], name: &Name) -> Option<&'a [u8]>
    ensures { option_map (λ b. b.now) result ≡ map.get (objects_of objects.now) name.now }
{
    let mut rest = objects;
    while let [first, after @ ..] = rest {
        if name.as_bytes() == first.name.as_bytes() {
            return Some(&first.bytes);
        }
        rest = after;
    }
    None
}

// Puts an object in front.
fn put_newest(objects: &mut Vec<Object>, name: Name, bytes: Vec<u8>) -> Result<(), AllocError>
    ensures ok { OnOk result (objects_of objects.new.items
        ≡ map.insert (objects_of objects.old.items) name bytes.items) }
    ensures err { OnErr result (objects.new.items ≡ objects.old.items) }
{
    tell_bytes(&bytes);
    objects.insert(0, Object { name, bytes })?;
    Ok(())
}

// Reads an object, or its absence, from a place on.
fn read_object(object: Option<&[u8]>, at: u64, out: &mut [u8]) -> Got
    ensures { Reads (option_map (λ b. b.now) object.entry) at out.old out.new result }
{
    match object {
        None => Got::Absent,
        Some(bytes) => Got::Bytes(read_part(bytes, at, out)),
    }
}

fn read_part(bytes: &[u8], at: u64, out: &mut [u8]) -> u64
    ensures count { result ≡ length (part bytes.now at (length out.old)) }
    ensures bytes { out.new ≡ part bytes.now at (length out.old)
        ++ drop (length (part bytes.now at (length out.old))) out.old }
{
    if at >= bytes.len() as u64 {
        return 0;
    }
    let left = &bytes[at as usize..];
    let n = left.len().min(out.len());
    out[..n].copy_from_slice(&left[..n]);
    n as u64
}

/// Objects in memory, and the numbers of the calls that fail.
#[derive(Drop)]
pub struct MemoryStore {
    alloc: Global,
    objects: Vec<Object>,
    writing: Option<Unfinished>,
    asked: u64,
    faults: u64,
    calls: u64,
    failing: Vec<u64>,
}

impl MemoryStore {
    ghost use Rattle.std.specs.Prelude.{◌≡◌, OnOk, OnErr, None};
    ghost use Rattle.std.specs.Option.{option_map};
    ghost use Rattle.std.specs.FinMap as map;
    ghost use Rattle.vol_base.specs.Memory.{seen};

    /// No objects, and the numbers of the calls that fail.
    pub fn new(alloc: Global, failing: Vec<u64>) -> MemoryStore
        ensures { seen result ≡ record {
          objects = map.empty;
          writing = None;
          asked = 0;
          faults = 0;
          calls =
              0;
          failing = failing.items;
        } }
    {
        MemoryStore {
            alloc,
            objects: Vec::new(alloc),
            writing: None,
            asked: 0,
            faults: 0,
            calls: 0,
            failing,
        }
    }

    /// Puts or replaces an object. It is no call that can fail but for want of memory.
    pub fn put(&mut self, name: &Name, bytes: Vec<u8>) -> Result<(), OutOfMemory>
        ensures ok { OnOk result (seen self.new ≡ record (seen self.old) {
          objects =
              map.insert (seen self.old).objects name.now bytes.items;
        }) }
        ensures err { OnErr result (seen self.new ≡ seen self.old) }
    {
        match put_newest(&mut self.objects, name.duplicate(), bytes) {
            Ok(()) => Ok(()),
            Err(_) => Err(OutOfMemory),
        }
    }

    /// How many bytes reads asked for.
    pub fn asked(&self) -> u64
        ensures { result ≡ self.now.asked }
    {
        self.asked
    }

    /// The bytes of an object.
    pub fn get(&self, name: &Name) -> Option<&[u8]>
        ensures { option_map (λ b. b.now) result ≡ map.get (seen self.now).objects name.now }
    {
        lookup(&self.objects, name)
    }
}

impl Source for MemoryStore {
    ghost use Rattle.std.specs.Prelude.{Some};
    ghost use Rattle.vol_base.specs.Held.{all_bytes};
    ghost use Rattle.vol_base.specs.Memory.{called, drafted, failed, fails, seen, stored};

    ghost objects = { stored };

    ghost draft = { drafted };

    ghost history = { λ _. [] };

    ghost asked = { λ s. counted s.asked };

    ghost faults = { λ s. counted s.faults };

    ghost counts = { λ s. (is_count s.asked, is_count s.faults) };

    ghost bytes = { λ s. all_bytes s.objects.items };

    fn size(&mut self, name: &Name) -> Result<Option<u64>, Failed>
        ensures found { IfOk result (λ size. IfSome (stored self.old) (λ m.
            size ≡ option_map length (map.get m name.now))) }
        ensures kept { OnlyReads (stored self.old) (stored self.new) (drafted self.old) (drafted self.new) }
        ensures asked { counted self.new.asked ≡ counted self.old.asked }
        ensures cause { HasCause (counted self.old.faults) (counted self.new.faults) result }
        ensures fails { IsErr result ↔ IsTrue (fails (seen self.old)) }
        ensures ok { OnOk result (seen self.new ≡ called (seen self.old)) }
        ensures err { OnErr result (seen self.new ≡ failed (seen self.old)) }
    {
        tick(&mut self.calls, &mut self.faults, &self.failing)?;
        match lookup(&self.objects, name) {
            None => Ok(None),
            Some(bytes) => Ok(Some(bytes.len() as u64)),
        }
    }

    fn read_at(&mut self, name: &Name, at: u64, out: &mut [u8]) -> Result<Got, Failed>
        requires { at + length out.old < 2 ^ 64 }
        ensures read { IfOk result (λ got. IfSome (stored self.old) (λ m.
            Reads (map.get m name.now) at out.old out.new got)) }
        ensures rest { IfOk result (KeepsRest out.old out.new) }
        ensures kept { OnlyReads (stored self.old) (stored self.new) (drafted self.old) (drafted self.new) }
        ensures asked { OnOk result (counted self.new.asked
            ≡ asked_after (counted self.old.asked) (length out.old)) }
        ensures asked_err { OnErr result ((counted self.old.asked ≤ counted self.new.asked) ×
            (counted self.new.asked ≤ counted self.old.asked + length out.old)) }
        ensures cause { HasCause (counted self.old.faults) (counted self.new.faults) result }
        ensures fails { IsErr result ↔ IsTrue (fails (seen self.old)) }
        ensures ok { OnOk result (seen self.new ≡ record (called (seen self.old)) {
          asked =
              asked_after self.old.asked (length out.old);
        }) }
        ensures err { OnErr result (seen self.new ≡ failed (seen self.old)) }
    {
        tick(&mut self.calls, &mut self.faults, &self.failing)?;
        self.asked = self.asked.saturating_add(out.len() as u64);
        Ok(read_object(lookup(&self.objects, name), at, out))
    }
}

// Whether the name of some object begins with a folder and `/`.
fn any_in(objects: &[Object], folder: &Name) -> bool
    ensures { result ≡ any_under (objects_of objects.now) folder.now }
{
    let folder = folder.as_bytes();
    some_under(objects, folder)
}

fn some_under(objects: &[Object], folder: &[u8]) -> bool
    ensures { result ≡ list_any (λ o. is_under folder.now o.name) objects.now }
{
    for o in objects {
        if under(folder, o.name.as_bytes()) {
            return true;
        }
    }
    false
}

fn under(folder: &[u8], name: &[u8]) -> bool
    ensures { result ≡ is_under folder.now name.now }
{
    name.starts_with(folder) && name.get(folder.len()).copied().unwrap_or(0) == b'/'
}

impl Store for MemoryStore {
    ghost use Rattle.vol_base.specs.Memory.{called, drafted, failed, fails, FailsAs, memory_tells, refused, seen, stored};

    ghost tells = { λ s. memory_tells (seen s) };

    fn any_under(&mut self, folder: &Name) -> Result<bool, Failed>
        ensures found { IfOk result (λ found. IfSome (stored self.old) (λ m.
            found ≡ any_under m folder.now)) }
        ensures kept { OnlyReads (stored self.old) (stored self.new) (drafted self.old) (drafted self.new) }
        ensures asked { counted self.new.asked ≡ counted self.old.asked }
        ensures cause { HasCause (counted self.old.faults) (counted self.new.faults) result }
        ensures fails { IsErr result ↔ IsTrue (fails (seen self.old)) }
        ensures ok { OnOk result (seen self.new ≡ called (seen self.old)) }
        ensures err { OnErr result (seen self.new ≡ failed (seen self.old)) }
    {
        tick(&mut self.calls, &mut self.faults, &self.failing)?;
        Ok(any_in(&self.objects, folder))
    }

    fn begin(&mut self, name: &Name) -> Result<(), StoreRefusal>
        ensures begun { OnOk result (drafted self.new ≡ Some (begun (stored self.old) name.now)) }
        ensures refused { OnErr result (drafted self.new ≡ None) }
        ensures objects { stored self.new ≡ stored self.old }
        ensures asked { counted self.new.asked ≡ counted self.old.asked }
        ensures cause { HasCauseOf StoreRefusal.Failed (counted self.old.faults) (counted self.new.faults) result }
        ensures fails { IsErr result ↔ IsTrue (fails (seen self.old)) }
        ensures ok { OnOk result (seen self.new ≡ record (called (seen self.old)) { writing = Some (name.now, []) }) }
        ensures err { OnErr result (seen self.new ≡ record (failed (seen self.old)) { writing = None }) }
    {
        self.writing = None;
        if tick(&mut self.calls, &mut self.faults, &self.failing).is_err() {
            return Err(StoreRefusal::Failed);
        }
        self.writing = Some(Unfinished {
            name: name.duplicate(),
            bytes: Vec::new(self.alloc),
        });
        Ok(())
    }

    fn append(&mut self, piece: &[u8]) -> Result<(), StoreRefusal>
        requires { IsSome (drafted self.old) }
        ensures appended { OnOk result (drafted self.new
            ≡ option_map (λ d. appended d piece.now) (drafted self.old)) }
        ensures refused { OnErr result (drafted self.new ≡ None) }
        ensures objects { stored self.new ≡ stored self.old }
        ensures asked { counted self.new.asked ≡ counted self.old.asked }
        ensures cause { HasCauseOf StoreRefusal.Failed (counted self.old.faults) (counted self.new.faults) result }
        ensures fails { IsTrue (fails (seen self.old)) → IsErr result }
        ensures refusal { IfErr result (λ refusal. FailsAs refusal (fails (seen self.old))) }
        ensures ok { OnOk result (seen self.new ≡ record (called (seen self.old)) {
          writing =
              option_map (λ d. (d.0, d.1 ++ piece.now)) (seen self.old).writing;
        }) }
        ensures err { IfErr result (λ refusal. seen self.new
            ≡ record (refused refusal (seen self.old)) { writing = None }) }
    {
        let Some(object) = self.writing.take() else {
            return Ok(());
        };
        match tick(&mut self.calls, &mut self.faults, &self.failing) {
            Ok(()) => {}
            Err(_) => return Err(StoreRefusal::Failed),
        }
        let mut object = object;
        if object.bytes.extend_from_slice(piece).is_err() {
            return Err(StoreRefusal::OutOfMemory);
        }
        self.writing = Some(object);
        Ok(())
    }

    fn patch_front(&mut self, at: u64, piece: &[u8]) -> Result<(), StoreRefusal>
        requires written { IsSome (drafted self.old) }
        requires within { IfSome (drafted self.old) (λ d. at + length piece.now ≤ d.len) }
        ensures patched { OnOk result (drafted self.new
            ≡ option_map (λ d. patched d at piece.now) (drafted self.old)) }
        ensures refused { OnErr result (drafted self.new ≡ None) }
        ensures objects { stored self.new ≡ stored self.old }
        ensures asked { counted self.new.asked ≡ counted self.old.asked }
        ensures cause { HasCauseOf StoreRefusal.Failed (counted self.old.faults) (counted self.new.faults) result }
        ensures fails { IsErr result ↔ IsTrue (fails (seen self.old)) }
        ensures ok { OnOk result (seen self.new ≡ record (called (seen self.old)) {
          writing =
              option_map (λ d. (d.0, overwritten d.1 at piece.now)) (seen self.old).writing;
        }) }
        ensures err { OnErr result (seen self.new ≡ record (failed (seen self.old)) { writing = None }) }
    {
        let Some(object) = self.writing.take() else {
            return Ok(());
        };
        match tick(&mut self.calls, &mut self.faults, &self.failing) {
            Ok(()) => {}
            Err(_) => return Err(StoreRefusal::Failed),
        }
        let mut object = object;
        patch(&mut object.bytes, at as usize, piece);
        self.writing = Some(object);
        Ok(())
    }

    fn finish(&mut self) -> Result<(), StoreRefusal>
        requires { IsSome (drafted self.old) }
        ensures finished { OnOk result (IfSome (drafted self.old) (λ d.
            stored self.new ≡ option_map (finished d.told) (stored self.old))) }
        ensures draft { drafted self.new ≡ None }
        ensures refused { OnErr result (stored self.new ≡ stored self.old) }
        ensures asked { counted self.new.asked ≡ counted self.old.asked }
        ensures cause { HasCauseOf StoreRefusal.Failed (counted self.old.faults) (counted self.new.faults) result }
        ensures fails { IsTrue (fails (seen self.old)) → IsErr result }
        ensures refusal { IfErr result (λ refusal. FailsAs refusal (fails (seen self.old))) }
        ensures ok { OnOk result (seen self.new ≡ record (called (seen self.old)) {
          objects =
              finished (seen self.old).writing (seen self.old).objects;
          writing = None;
        }) }
        ensures err { IfErr result (λ refusal. seen self.new
            ≡ record (refused refusal (seen self.old)) { writing = None }) }
    {
        let Some(object) = self.writing.take() else {
            return Ok(());
        };
        match tick(&mut self.calls, &mut self.faults, &self.failing) {
            Ok(()) => {}
            Err(_) => return Err(StoreRefusal::Failed),
        }
        if put_newest(&mut self.objects, object.name, object.bytes).is_err() {
            return Err(StoreRefusal::OutOfMemory);
        }
        Ok(())
    }
}

fn patch(bytes: &mut [u8], at: usize, piece: &[u8])
    requires { at + length piece.now ≤ length bytes.old }
    ensures { bytes.new ≡ overwritten bytes.old at piece.now }
{
    bytes[at..at + piece.len()].copy_from_slice(piece);
}
