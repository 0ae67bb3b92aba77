//! What a command tells and leaves.

use command_base::Status;
use memory_rows::{has_all, has_none, put};
use std::alloc::Global;
use std::process::Abort;
use std::test::Fail;
use vol_base::{MemoryOutlet, MemoryStore};

/// A store that has a document alone, of whose calls those with some numbers fail.
pub(super) fn document_store(
    alloc: Global,
    info: &str,
    failing: &[u64],
) -> Result<MemoryStore, Fail> {
    let mut store = MemoryStore::new(alloc, failing.to_vec(alloc)?);
    put(alloc, &mut store, "d/info", info.as_bytes())?;
    Ok(store)
}

/// Puts some objects into a store.
pub(super) fn put_all(
    alloc: Global,
    store: &mut MemoryStore,
    objects: &[(&str, &[u8])],
) -> Result<(), Fail> {
    for (name, bytes) in objects {
        put(alloc, store, name, bytes)?;
    }
    Ok(())
}

/// Where a command ends well it prints a line and tells nothing; else it tells one, and prints nothing where its output works.
pub(super) fn check_told(
    rt: &impl Abort,
    out: &MemoryOutlet,
    err: &MemoryOutlet,
    status: Status,
    line: &str,
) {
    let (told, other) = if status == Status::Ok {
        (out, err)
    } else {
        (err, out)
    };
    assert!(rt; told.written() == line.as_bytes(), "not {line}");
    assert!(rt;
        status == Status::OutFault || other.written().is_empty(),
        "more than {line}"
    );
}

/// So many of some objects stand, the first ones, and none of the others.
pub(super) fn check_first(
    rt: &impl Abort,
    store: &MemoryStore,
    objects: &[(&str, &[u8])],
    count: usize,
) {
    let (there, absent) = objects.split_at(count.min(objects.len()));
    assert!(rt;
        has_all(store, there) && has_none(store, absent),
        "not the first {count}"
    );
}
