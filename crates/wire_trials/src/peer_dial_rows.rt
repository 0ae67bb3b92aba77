//! A store over a peer that tells its objects. What is there is answered in whatever pieces it comes, over one connection, and
//! where a call of the dial fails the store fails, and goes on with the next call, over one more. Each answer was worked out by
//! hand.
ghost use Rattle.std.specs.Prelude.{◌≡◌, IfOk, IsTrue};

use crate::local_store::local_store;
use memory_rows::name_of;
use peer_dial::{Entry, PeerDial};
use remote_store::Remote;
use std::alloc::Global;
use std::process::Abort;
use std::test::Fail;
use vol_base::{Got, Source};

const OBJECTS: &[(&str, &[u8])] = &[
    ("d/s/x", b"0123456789"),
    ("d/s/empty", b""),
    ("d/info", b"{}"),
    ("e/s/x", b"another"),
    ("d/s/x", b"hidden by the first"),
];

// The name of an object, from which byte on how many are read; and what is answered, and the buffer then.
type Read = (&'static str, u8, usize, Got, &'static [u8]);

const READS: &[Read] = &[
    ("d/s/x", 2, 3, Got::Bytes(3), b"234"),
    ("d/s/x", 8, 5, Got::Bytes(2), b"89..."),
    ("d/s/x", 10, 1, Got::Bytes(0), b"."),
    ("d/s/x", 3, 0, Got::Bytes(0), b""),
    ("d/info", 0, 2, Got::Bytes(2), b"{}"),
    ("d/s/empty", 0, 2, Got::Bytes(0), b".."),
    ("d/s/none", 0, 2, Got::Absent, b".."),
    ("d/s/none", 0, 0, Got::Absent, b""),
    ("e/s/x", 0, 2, Got::Absent, b".."),
];

// Lengths of objects.
type Size = (&'static str, Option<u64>);

const SIZES: &[Size] = &[
    ("d/s/x", Some(10)),
    ("d/s/empty", Some(0)),
    ("d/info", Some(2)),
    ("d/none", None),
    ("e/s/x", None),
];

fn entries_of(alloc: Global, objects: &[(&str, &[u8])]) -> Result<Vec<Entry>, Fail> {
    let mut entries = Vec::new(alloc);
    for (name, bytes) in objects {
        entries.push(Entry::new(name_of(name)?, bytes.to_vec(alloc)?))?;
    }
    Ok(entries)
}

// A peer with all objects, which gives so many bytes at a time, and of whose calls those with some numbers fail.
fn dial_of(alloc: Global, piece: usize, failing: &[u64]) -> Result<PeerDial, Fail> {
    let entries = entries_of(alloc, OBJECTS)?;
    let dataset = name_of("d")?;
    let failing = failing.to_vec(alloc)?;
    Ok(PeerDial::new(alloc, entries, dataset, piece.max(1), failing))
}

// Whether an object reads as it is, or the call fails.
fn reads(rt: &impl Abort, store: &mut Remote<PeerDial>, row: &Read) -> Result<bool, Fail> {
    let (name, at, count, answer, bytes) = row;
    let mut whole = [b'.'; 5];
    let buffer = &mut whole[..(*count).min(5)];
    let Ok(got) = store.read_at(&name_of(name)?, u64::from(*at), buffer) else {
        return Ok(false);
    };
    assert!(rt; got == *answer && *buffer == **bytes, "at {name} {at}");
    Ok(true)
}

// Whether an object has the length that it has, or the call fails.
fn says_length(rt: &impl Abort, store: &mut Remote<PeerDial>, row: &Size) -> Result<bool, Fail> {
    let (name, wanted) = row;
    let Ok(size) = store.size(&name_of(name)?) else {
        return Ok(false);
    };
    assert_eq!(rt; size, *wanted, "at {name}");
    Ok(true)
}

// How many calls fail, of those that read these rows one after the other.
fn count_failing_reads(
    rt: &impl Abort,
    store: &mut Remote<PeerDial>,
    rows: &[Read],
) -> Result<u64, Fail> {
    let mut failed = 0u64;
    for row in rows {
        if !reads(rt, store, row)? {
            failed = failed.saturating_add(1);
        }
    }
    Ok(failed)
}

// How many fail of those that ask for these lengths.
fn count_failing_sizes(
    rt: &impl Abort,
    store: &mut Remote<PeerDial>,
    rows: &[Size],
) -> Result<u64, Fail> {
    let mut failed = 0u64;
    for row in rows {
        if !says_length(rt, store, row)? {
            failed = failed.saturating_add(1);
        }
    }
    Ok(failed)
}

// How many calls fail, of those that read all rows one after the other.
fn count_failing(rt: &impl Abort, store: &mut Remote<PeerDial>) -> Result<u64, Fail> {
    let failed = count_failing_reads(rt, store, READS)?;
    Ok(failed.saturating_add(count_failing_sizes(rt, store, SIZES)?))
}

// Pieces of so many bytes are read over one connection.
fn check_piece(rt: &impl Abort, alloc: Global, piece: usize) -> Result<(), Fail> {
    let mut store = local_store(alloc, dial_of(alloc, piece, &[])?)?;
    assert_eq!(rt; count_failing(rt, &mut store)?, 0);
    assert_eq!(rt; store.dial.dials(), 1);
    Ok(())
}

fn check_pieces(rt: &impl Abort, alloc: Global, pieces: &[usize]) -> Result<(), Fail> {
    for piece in pieces {
        check_piece(rt, alloc, *piece)?;
    }
    Ok(())
}

#[test]
fn reads_what_is_there(rt: HostRuntime) -> Result<(), Fail> {
    check_pieces(&rt, rt.alloc(), &[1, 2, 7, 100, 100_000])
}

// A call of the dial fails: so does one call of the store, and all else reads as it is. Answers whether there is such a call.
fn call_fails(rt: &impl Abort, alloc: Global, call: u64) -> Result<bool, Fail> {
    let mut store = local_store(alloc, dial_of(alloc, 60, &[call])?)?;
    let failed = count_failing(rt, &mut store)?;
    assert!(rt; failed <= 1 && store.dial.dials() <= 2, "at {call}");
    Ok(failed != 0)
}

// Each call in turn.
#[test]
fn goes_on_behind_each_failure(rt: HostRuntime) -> Result<(), Fail> {
    let mut calls = 0u64;
    for call in 0..1000 {
        if !call_fails(&rt, rt.alloc(), call)? {
            break;
        }
        calls = call.saturating_add(1);
    }
    assert!(rt; 40 < calls && calls < 1000, "{calls} calls");
    Ok(())
}
