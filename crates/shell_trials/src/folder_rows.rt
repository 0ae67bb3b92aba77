//! Objects put over files in memory, each call of which fails in turn.
use folder_store::{Change, DirStore, Folder, Item, MemoryFile, MemoryFolder, put_into};
use std::alloc::Global;
use std::test::Fail;
use vol_base::{Got, Name, Source, Store};

fn item(alloc: Global, name: &str, bytes: &[u8]) -> Result<Item, Fail> {
    let mut held = Vec::new(alloc);
    held.extend_from_slice(bytes)?;
    Ok(Item {
        name: Name::new(name.as_bytes()).ok_or("a name")?,
        bytes: held,
    })
}

// Three objects, two of one name, over a folder whose call of some number fails.
#[test]
fn puts_until_a_call_fails(rt: HostRuntime) -> Result<(), Fail> {
    let alloc = rt.alloc();
    let mut items = Vec::new(alloc);
    items.push(item(alloc, "d/a", b"older")?)?;
    items.push(item(alloc, "d/b", b"xyz")?)?;
    items.push(item(alloc, "d/a", b"newer!!")?)?;
    let mut succeeded: u64 = 0;
    for number in 0..60u64 {
        let mut folder = MemoryFolder::new(alloc, 2);
        folder.failing.push(number)?;
        folder.broken_off.push(number / 2)?;
        let (result, folder) = put_into(alloc, folder, &items);
        let mut folder = folder;
        folder.failing.clear();
        folder.broken_off.clear();
        let mut store = DirStore::new(folder, alloc);
        let a = store.size(&items[0].name).unwrap_or(None);
        let b = store.size(&items[1].name).unwrap_or(None);
        let found = store
            .any_under(&Name::new(b"d").ok_or("a name")?)
            .unwrap_or(false);
        assert_eq!(rt; found, a.is_some() || b.is_some());
        assert_eq!(rt; store.any_under(&items[0].name).unwrap_or(true), false);
        if result.is_ok() {
            succeeded = succeeded.saturating_add(1);
            assert_eq!(rt; a, Some(7));
            assert_eq!(rt; b, Some(3));
        } else {
            assert!(rt;
                (a == None && b == None) || (a == Some(5) && (b == None || b == Some(3))),
                "at {number}"
            );
        }
    }
    assert!(rt; succeeded > 20, "only {succeeded}");
    Ok(())
}

// The same objects where a signal breaks one call off, whichever it is: all is put.
#[test]
fn goes_on_after_a_signal(rt: HostRuntime) -> Result<(), Fail> {
    let alloc = rt.alloc();
    let mut items = Vec::new(alloc);
    items.push(item(alloc, "d/a", b"older")?)?;
    items.push(item(alloc, "d/a", b"newer!!")?)?;
    for number in 0..60u64 {
        let mut folder = MemoryFolder::new(alloc, 2);
        folder.broken_off.push(number)?;
        let (result, folder) = put_into(alloc, folder, &items);
        assert!(rt; result.is_ok(), "at {number}");
        let mut store = DirStore::new(folder, alloc);
        let mut found = [b'.'; 8];
        let got = store.read_at(&items[0].name, 0, &mut found);
        assert!(rt;
            got == Ok(Got::Bytes(7)) && found == *b"newer!!.",
            "at {number}"
        );
    }
    Ok(())
}

// What is left of a file.
#[derive(Drop, PartialEq, Eq)]
enum Left {
    Absent,
    Whole(usize),
    Torn,
}

// Which file stands at a path after some changes, the newest of which is the first.
fn number_at(changes: &[Change], path: &str) -> Option<usize> {
    for change in changes {
        match change {
            Change::Made(at, number) if at.as_str() == path => return Some(*number),
            Change::Moved(_, to, number) if to.as_str() == path => return Some(*number),
            Change::Moved(from, _, _) if from.as_str() == path => return None,
            Change::Removed(at) if at.as_str() == path => return None,
            _ => {}
        }
    }
    None
}

// How long a file is, if it is synced since it was written: else a loss of power may leave anything of it.
fn left_of(changes: &[Change], number: usize) -> Left {
    let mut synced = false;
    for change in changes {
        match change {
            Change::Synced(other) if *other == number => synced = true,
            Change::Wrote(other, content) if *other == number => {
                return if synced {
                    Left::Whole(content.bytes.len())
                } else {
                    Left::Torn
                };
            }
            _ => {}
        }
    }
    Left::Torn
}

// What a loss of power leaves at a path, if the disk has what the path led to after these changes.
fn left_at(changes: &[Change], path: &str) -> Left {
    match number_at(changes, path) {
        Some(number) => left_of(changes, number),
        None => Left::Absent,
    }
}

// A folder with an older object, which the disk has.
fn older(alloc: Global, failing: u64) -> Result<MemoryFolder, Fail> {
    let mut items = Vec::new(alloc);
    items.push(item(alloc, "d/a", b"older")?)?;
    let (_, mut folder) = put_into(alloc, MemoryFolder::new(alloc, 2), &items);
    let number = number_at(&folder.changes, "d/a").ok_or("an object")?;
    folder.sync(&MemoryFile { number })?;
    let call = folder.calls.saturating_add(failing);
    folder.failing.push(call)?;
    Ok(folder)
}

// An object in place of an older one, and a new one, over a folder whose call of some number fails. Power is lost at some moment,
// and the disk has the names of any earlier one: the older object is whole, old or new. Nothing is waited for of the new one, which may be
// torn.
#[test]
fn keeps_what_stood_where_power_is_lost(rt: HostRuntime) -> Result<(), Fail> {
    let alloc = rt.alloc();
    let mut items = Vec::new(alloc);
    items.push(item(alloc, "d/a", b"newer!!")?)?;
    items.push(item(alloc, "d/b", b"xyz")?)?;
    let mut torn = false;
    for number in 0..30u64 {
        let folder = older(alloc, number)?;
        let before = folder.changes.len();
        let (_, folder) = put_into(alloc, folder, &items);
        let gained = folder.changes.len().saturating_sub(before);
        for newest in 0..gained.saturating_add(1) {
            let moment = folder.changes.get(newest..).ok_or("a moment")?;
            let left = left_at(moment, "d/a");
            assert!(rt;
                left == Left::Whole(5) || left == Left::Whole(7),
                "at {number}, {newest}"
            );
            torn = torn || left_at(moment, "d/b") == Left::Torn;
        }
    }
    assert!(rt; torn);
    Ok(())
}
