//! Objects below a real folder, and what others do there meanwhile.
use folder_store::{DirStore, HostFolder};
use std::os::unix::fs::{MetadataExt, symlink};
use std::test::Fail;
use std::{fs, io};
use vol_base::{Failed, Got, Name, Source, Store, StoreRefusal};

// What others do, what is asked of the store with what it answers, and what stands then.
#[derive(Clone, Copy)]
enum Step {
    Write(&'static str, &'static [u8]),
    Rename(&'static str, &'static str),
    Remove(&'static str),
    Symlink(&'static str, &'static str),
    HardLink(&'static str, &'static str),
    Begin(&'static str),
    Refuse(&'static str),
    Put(&'static str),
    Size(&'static str, Option<u64>),
    Any(&'static str, bool),
    Read(&'static str, u32, &'static [u8]),
    FailToRead(&'static str),
    Holds(&'static str, &'static [u8]),
    Stands(&'static str, bool),
}

use Step::{
    Any, Begin, FailToRead, HardLink, Holds, Put, Read, Refuse, Remove, Rename, Size, Stands,
    Symlink, Write,
};

// The objects below the current directory.
type HostStore = DirStore<HostFolder<HostRuntime>>;

// The bytes of an object that was put.
const PUT: &[u8] = b"abXYef";

fn name_of(path: &str) -> Result<Name, Fail> {
    Ok(Name::new(path.as_bytes()).ok_or("a name")?)
}

fn done(made: io::Result<()>) -> Result<bool, Fail> {
    made?;
    Ok(true)
}

fn begin(store: &mut HostStore, path: &str) -> Result<bool, Fail> {
    Ok(store.begin(&name_of(path)?).is_ok())
}

fn refuses(store: &mut HostStore, path: &str) -> Result<bool, Fail> {
    Ok(store.begin(&name_of(path)?) == Err(StoreRefusal::Failed))
}

// Puts an object of six bytes: in two pieces, with two bytes in the middle overwritten.
fn put_patched(store: &mut HostStore, name: &Name) -> Result<(), StoreRefusal> {
    store.begin(name)?;
    store.append(b"abcd")?;
    store.append(b"ef")?;
    store.patch_front(2, b"XY")?;
    store.finish()
}

fn put(store: &mut HostStore, path: &str) -> Result<bool, Fail> {
    Ok(put_patched(store, &name_of(path)?).is_ok())
}

fn has_size(store: &mut HostStore, path: &str, wanted: Option<u64>) -> Result<bool, Fail> {
    Ok(store.size(&name_of(path)?) == Ok(wanted))
}

fn has_any(store: &mut HostStore, path: &str, wanted: bool) -> Result<bool, Fail> {
    Ok(store.any_under(&name_of(path)?) == Ok(wanted))
}

// A read of six bytes.
fn reads(store: &mut HostStore, path: &str, at: u32, wanted: &[u8]) -> Result<bool, Fail> {
    let mut found = [b'.'; 6];
    let got = store.read_at(&name_of(path)?, u64::from(at), &mut found);
    Ok(got == Ok(Got::Bytes(wanted.len() as u64)) && found.starts_with(wanted))
}

fn fails_to_read(store: &mut HostStore, path: &str) -> Result<bool, Fail> {
    Ok(store.read_at(&name_of(path)?, 0, &mut [0; 6]) == Err(Failed))
}

// A file of these bytes and of no other name stands there, and no link.
fn holds(rt: &HostRuntime, path: &str, wanted: &[u8]) -> Result<bool, Fail> {
    let found = fs::symlink_metadata(rt, path)?;
    let bytes = fs::read(rt, path)?;
    Ok(found.is_file() && found.nlink() == 1 && bytes.as_slice() == wanted)
}

fn stands(rt: &HostRuntime, path: &str, wanted: bool) -> bool {
    fs::symlink_metadata(rt, path).is_ok() == wanted
}

// Takes a step. Whether it was as it says.
fn take(rt: &HostRuntime, store: &mut HostStore, step: Step) -> Result<bool, Fail> {
    match step {
        Write(path, bytes) => done(fs::write(rt, path, bytes)),
        Rename(from, to) => done(fs::rename(rt, from, to)),
        Remove(path) => done(fs::remove_file(rt, path)),
        Symlink(target, path) => done(symlink(rt, target, path)),
        HardLink(target, path) => done(fs::hard_link(rt, target, path)),
        Begin(path) => begin(store, path),
        Refuse(path) => refuses(store, path),
        Put(path) => put(store, path),
        Size(path, wanted) => has_size(store, path, wanted),
        Any(path, wanted) => has_any(store, path, wanted),
        Read(path, at, wanted) => reads(store, path, at, wanted),
        FailToRead(path) => fails_to_read(store, path),
        Holds(path, wanted) => holds(rt, path, wanted),
        Stands(path, wanted) => Ok(stands(rt, path, wanted)),
    }
}

// Which step is the first that isn't as it says.
fn first_wrong(rt: HostRuntime, steps: &[Step]) -> Result<Option<usize>, Fail> {
    let mut store = DirStore::new(HostFolder::new(rt), rt.alloc());
    for (number, step) in steps.iter().enumerate() {
        if !take(&rt, &mut store, *step)? {
            return Ok(Some(number));
        }
    }
    Ok(None)
}

#[test]
fn puts_objects_in_place_of_older_ones(rt: HostRuntime) -> Result<(), Fail> {
    let steps = [
        Begin("d/s/0-1"),
        Stands("d/s/0-1.part", true),
        Size("d/s/0-1", None),
        Any("d", false),
        Begin("d/s/1-2"),
        Stands("d/s/0-1.part", false),
        Write("d/s/0-1", b"an older object"),
        Put("d/s/0-1"),
        Size("d/s/0-1", Some(6)),
        Any("d", true),
        Stands("d/s/0-1.part", false),
        Stands("d/s/1-2.part", false),
        Refuse("d/s/0-1/x"),
        Refuse("x.part"),
    ];
    assert_eq!(rt; first_wrong(rt, &steps)?, None);
    Ok(())
}

#[test]
fn reads_what_the_file_holds(rt: HostRuntime) -> Result<(), Fail> {
    let steps = [
        Put("e/0-1"),
        Read("e/0-1", 0, PUT),
        Read("e/0-1", 2, b"XYef"),
        Read("e/0-1", 5, b"f"),
        Read("e/0-1", 6, b""),
        Read("e/0-1", 7, b""),
        Write("e/0-1", b"ab"),
        FailToRead("e/0-1"),
        Read("e/0-1", 0, b"ab"),
    ];
    assert_eq!(rt; first_wrong(rt, &steps)?, None);
    Ok(())
}

#[test]
fn tells_the_size_of_the_file_that_stands_there(rt: HostRuntime) -> Result<(), Fail> {
    let steps = [
        Put("f/0-1"),
        Size("f/0-1", Some(6)),
        Write("f/1-2", b"newer!"),
        Rename("f/1-2", "f/0-1"),
        Size("f/0-1", Some(6)),
        Read("f/0-1", 0, b"newer!"),
        Write("f/0-1", b"longer than that"),
        Size("f/0-1", Some(16)),
        Remove("f/0-1"),
        Size("f/0-1", None),
    ];
    assert_eq!(rt; first_wrong(rt, &steps)?, None);
    Ok(())
}

// Files that an earlier run left where an object is written to, and links of both kinds: what these lead to, no object or another
// one, keeps its bytes.
#[test]
fn makes_anew_what_was_left(rt: HostRuntime) -> Result<(), Fail> {
    let steps = [
        Write("foreign", b"no object"),
        Write("g1-2", b"another object"),
        Write("g0-1.part", b"longer than the object"),
        Put("g0-1"),
        Holds("g0-1", PUT),
        Symlink("foreign", "g0-1.part"),
        Put("g0-1"),
        Holds("g0-1", PUT),
        HardLink("foreign", "g0-1.part"),
        Put("g0-1"),
        Holds("g0-1", PUT),
        Symlink("g1-2", "g0-1.part"),
        Put("g0-1"),
        Holds("g0-1", PUT),
        HardLink("g1-2", "g0-1.part"),
        Put("g0-1"),
        Holds("g0-1", PUT),
        Holds("foreign", b"no object"),
        Holds("g1-2", b"another object"),
        HardLink("g0-1", "g0-1.part"),
        Put("g0-1"),
        Holds("g0-1", PUT),
        Symlink("nowhere", "g0-1.part"),
        Put("g0-1"),
        Holds("g0-1", PUT),
        Stands("g0-1.part", false),
        Stands("nowhere", false),
    ];
    assert_eq!(rt; first_wrong(rt, &steps)?, None);
    Ok(())
}
