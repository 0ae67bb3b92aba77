//! What a row of a test has, in memory.
ghost use Rattle.std.specs.Prelude.{◌≡◌, ◌≤◌, IfOk, length};

use std::alloc::{AllocError, Global};
use std::test::Fail;
use vol_base::{MemoryFeed, MemoryOutlet, MemoryStore, Name};

/// The document of one raw scale `s` of `uint8`, of a size and a chunk size.
pub fn raw_info(alloc: Global, size: &str, chunk: &str) -> Result<String, AllocError> {
    let mut info = String::from_str(
        alloc,
        "{\"type\":\"image\",\"data_type\":\"uint8\",\"num_channels\":1,\"scales\":[{\"key\":\"s\",\"size\":",
    )?;
    info.push_str(size)?;
    info.push_str(",\"chunk_sizes\":[")?;
    info.push_str(chunk)?;
    info.push_str("],\"resolution\":[8,8,40],\"encoding\":\"raw\"}]}")?;
    Ok(info)
}

/// A name of at most 200 bytes.
pub fn name_of(text: &str) -> Result<Name, Fail>
    ensures { IfOk result (λ name. length name ≤ 200) }
{
    let name = Name::new(text.as_bytes()).ok_or("no name")?;
    if name.as_bytes().len() > 200 {
        return Err(Fail::from("a long name"));
    }
    Ok(name)
}

/// Puts an object into a store.
pub fn put(alloc: Global, store: &mut MemoryStore, name: &str, bytes: &[u8]) -> Result<(), Fail> {
    let name = Name::new(name.as_bytes()).ok_or("no name")?;
    store.put(&name, bytes.to_vec(alloc)?)?;
    Ok(())
}

/// A store of some objects, of whose calls those with some numbers fail.
pub fn store_of(
    alloc: Global,
    objects: &[(&str, &[u8])],
    failing: &[u64],
) -> Result<MemoryStore, Fail> {
    let mut store = MemoryStore::new(alloc, failing.to_vec(alloc)?);
    for (name, bytes) in objects {
        put(alloc, &mut store, name, bytes)?;
    }
    Ok(store)
}

/// Whether a store has some objects, each with its bytes.
pub fn has_all(store: &MemoryStore, objects: &[(&str, &[u8])]) -> bool {
    objects
        .iter()
        .all(|(name, bytes)| is_there(store, name, bytes))
}

// Whether a store has an object of these bytes.
fn is_there(store: &MemoryStore, name: &str, bytes: &[u8]) -> bool {
    match Name::new(name.as_bytes()) {
        Some(name) => store.get(&name) == Some(bytes),
        None => false,
    }
}

/// Whether a store has none of some objects' names.
pub fn has_none(store: &MemoryStore, objects: &[(&str, &[u8])]) -> bool {
    objects.iter().all(|(name, _)| is_absent(store, name))
}

// Whether a store has no object of a name.
fn is_absent(store: &MemoryStore, name: &str) -> bool {
    match Name::new(name.as_bytes()) {
        Some(name) => store.get(&name).is_none(),
        None => true,
    }
}

/// An outlet with room for 256 bytes that takes at most so many at once, of whose calls those with some numbers fail.
pub fn outlet_of(alloc: Global, piece: usize, failing: &[u64]) -> Result<MemoryOutlet, Fail> {
    let outlet = MemoryOutlet::new(alloc, 256, piece.max(1), failing.to_vec(alloc)?)?;
    Ok(outlet)
}

/// A feed of no bytes.
pub fn no_feed(alloc: Global) -> MemoryFeed {
    MemoryFeed::new(Vec::new(alloc), 1, Vec::new(alloc))
}
