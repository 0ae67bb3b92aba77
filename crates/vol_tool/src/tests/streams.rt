//! Commands over pipes in memory, as calls of the system see them: short, broken off by signals, and each failing in turn. Nothing wrong
//! ends well, and what is written is a front of what is due.

use crate::tests::words_of;
use crate::top::run;
use memory_rows::store_of;
use pipes::{MemoryPipe, PipeFeed, PipeOutlet};
use std::alloc::Global;
use std::process::Abort;
use std::sync::Wait;
use std::test::Fail;
use std::thread::Threads;
use vol_base::{FreeGate, MemoryStore, Name};
use vol_shell::NoDoor;

// Three voxels in a row, each a chunk.
const INFO: &[u8] =
    b"{\"type\":\"image\",\"data_type\":\"uint8\",\"num_channels\":1,\"scales\":[{\"key\":\"s\",\"size\":[3,1,1],\"chunk_sizes\":[[1,1,1]],\"resolution\":[8,8,40],\"encoding\":\"raw\"}]}";

// Two writes, of all three voxels and of the last two, and one that reaches too far.
const TWO: &[u8] =
    b"PVW1\x02\0\0\0\0\0\0\0\0\0\0\0\0\0\0\0\0\0\0\0\0\0\0\0\0\0\0\0\x03\0\0\0\0\0\0\0\x01\0\0\0\0\0\0\0\x01\0\0\0\0\0\0\0\x01\x02\x03\x01\0\0\0\0\0\0\0\0\0\0\0\0\0\0\0\0\0\0\0\0\0\0\0\x02\0\0\0\0\0\0\0\x01\0\0\0\0\0\0\0\x01\0\0\0\0\0\0\0\x08\x09";

const TOO_FAR: &[u8] =
    b"PVW1\x01\0\0\0\x02\0\0\0\0\0\0\0\0\0\0\0\0\0\0\0\0\0\0\0\0\0\0\0\x02\0\0\0\0\0\0\0\x01\0\0\0\0\0\0\0\x01\0\0\0\0\0\0\0\x08\x09";

// A command, the voxels before it where there are any, its stream, its status, the voxels after it, and what it prints and says.
struct Row {
    words: &'static str,
    before: &'static [u8],
    stream: &'static [u8],
    status: u8,
    after: &'static [u8],
    printed: &'static [u8],
    line: &'static [u8],
}

const ROWS: [Row; 4] = [
    Row {
        words: "write d s",
        before: &[],
        stream: TWO,
        status: 0,
        after: &[1, 8, 9],
        printed: b"objects 3 cells 3\n",
        line: &[],
    },
    Row {
        words: "update d s",
        before: &[4, 5, 6],
        stream: TWO,
        status: 0,
        after: &[1, 8, 9],
        printed: b"objects 3 cells 3\n",
        line: &[],
    },
    Row {
        words: "cutout d s [0:3,0:1,0:1]",
        before: &[4, 5, 6],
        stream: &[],
        status: 0,
        after: &[4, 5, 6],
        printed: &[4, 5, 6],
        line: &[],
    },
    Row {
        words: "write d s",
        before: &[],
        stream: TOO_FAR,
        status: 3,
        after: &[],
        printed: &[],
        line: b"write 0: outside scale\n",
    },
];

// The names of the chunks.
const CHUNKS: [&str; 3] = ["d/s/0-1_0-1_0-1", "d/s/1-2_0-1_0-1", "d/s/2-3_0-1_0-1"];

// Which pipe of a command is meant: of its stream, of its output, or of its error output.
#[derive(Clone, Copy)]
enum Which {
    Stream,
    Output,
    Errors,
}

// How a call fails: by an error, or since a signal broke it off.
#[derive(Clone, Copy)]
enum Failure {
    Error,
    Signal,
}

// The three pipes of a command.
#[derive(Drop)]
struct Streams {
    feed: PipeFeed<MemoryPipe>,
    out: PipeOutlet<MemoryPipe>,
    err: PipeOutlet<MemoryPipe>,
}

impl Streams {
    // Pipes that give and take so many bytes at most.
    fn new(alloc: Global, stream: &[u8], piece: usize) -> Result<Streams, Fail> {
        let bytes = stream.to_vec(alloc)?;
        Ok(Streams {
            feed: PipeFeed::new(MemoryPipe::new(alloc, bytes, piece), alloc),
            out: PipeOutlet::new(MemoryPipe::new(alloc, Vec::new(alloc), piece)),
            err: PipeOutlet::new(MemoryPipe::new(alloc, Vec::new(alloc), piece)),
        })
    }

    fn pipe(&mut self, which: Which) -> &mut MemoryPipe {
        match which {
            Which::Stream => &mut self.feed.pipe,
            Which::Output => &mut self.out.pipe,
            Which::Errors => &mut self.err.pipe,
        }
    }
}

// The objects before a command.
fn prepare(alloc: Global, row: &Row) -> Result<MemoryStore, Fail> {
    let mut store = store_of(alloc, &[("d/info", INFO)], &[])?;
    for (chunk, byte) in CHUNKS.iter().zip(row.before.iter()) {
        let name = Name::new(chunk.as_bytes()).ok_or("no name")?;
        store.put(&name, [*byte].to_vec(alloc)?)?;
    }
    Ok(store)
}

// Whether the voxels of a store are these; none where nothing was written.
fn has_voxels(store: &MemoryStore, voxels: &[u8]) -> Result<bool, Fail> {
    for number in 0..3usize {
        let name = Name::new(CHUNKS[number].as_bytes()).ok_or("no name")?;
        let wanted = voxels.get(number);
        let is_right = match (store.get(&name), wanted) {
            (Some(found), Some(byte)) => found == [*byte].as_slice(),
            (None, None) => true,
            _ => false,
        };
        if !is_right {
            return Ok(false);
        }
    }
    Ok(true)
}

// The status that a command ends with, over its streams.
fn call_over<R: Threads + Wait + Sync>(
    rt: &R,
    alloc: Global,
    row: &Row,
    store: &mut MemoryStore,
    streams: &mut Streams,
) -> Result<u8, Fail> {
    let words = words_of(alloc, row.words)?;
    let mut door = NoDoor::new();
    let Streams { feed, out, err } = streams;
    let status = run(
        rt, alloc, &words, store, feed, out, err, &mut door, &FreeGate,
    );
    Ok(status.number())
}

// A command of which the call of a number fails at a pipe. Whether there was such a call.
fn check_failing<R: Threads + Wait + Abort + Sync>(
    rt: &R,
    alloc: Global,
    row: &Row,
    (which, failure, piece): (Which, Failure, usize),
    number: u64,
) -> Result<bool, Fail> {
    let words = row.words;
    let mut store = prepare(alloc, row)?;
    let mut streams = Streams::new(alloc, row.stream, piece)?;
    match failure {
        Failure::Error => streams.pipe(which).failing.push(number)?,
        Failure::Signal => streams.pipe(which).broken_off.push(number)?,
    }
    let status = call_over(rt, alloc, row, &mut store, &mut streams)?;
    let was_made = streams.pipe(which).calls > number;
    assert!(rt;
        row.printed.starts_with(&streams.out.pipe.gone),
        "{words}, call {number}"
    );
    let due = match (which, failure) {
        (Which::Stream, Failure::Error) if was_made => 6,
        (Which::Output, Failure::Error) if was_made => 7,
        _ => row.status,
    };
    assert_eq!(rt; status, due, "{words}, call {number}");
    if status == row.status {
        assert!(rt;
            streams.out.pipe.gone.as_slice() == row.printed,
            "{words}, call {number}"
        );
        assert!(rt; has_voxels(&store, row.after)?, "{words}, call {number}");
    }
    if status == 6 {
        assert!(rt; has_voxels(&store, row.before)?, "{words}, call {number}");
    }
    check_line(rt, row, status, which, failure, &streams);
    Ok(was_made)
}

// What a command says: its line, or a front of it where its error output failed.
fn check_line<R: Abort>(
    rt: &R,
    row: &Row,
    status: u8,
    which: Which,
    failure: Failure,
    streams: &Streams,
) {
    let line: &[u8] = match status {
        6 => b"feed fault\n",
        7 => b"output fault\n",
        _ => row.line,
    };
    let words = row.words;
    let gone = &streams.err.pipe.gone;
    match (which, failure) {
        (Which::Errors, Failure::Error) => assert!(rt; line.starts_with(gone), "{words}"),
        _ => assert!(rt; gone.as_slice() == line, "{words}"),
    }
}

// Each call of a pipe fails in turn.
fn check_each<R: Threads + Wait + Abort + Sync>(
    rt: &R,
    alloc: Global,
    row: &Row,
    way: (Which, Failure, usize),
) -> Result<(), Fail> {
    for number in 0..200u64 {
        if !check_failing(rt, alloc, row, way, number)? {
            return Ok(());
        }
    }
    Err(Fail::from("too many calls"))
}

fn check_pipes<R: Threads + Wait + Abort + Sync>(
    rt: &R,
    alloc: Global,
    failure: Failure,
) -> Result<(), Fail> {
    for row in &ROWS {
        for which in [Which::Stream, Which::Output, Which::Errors] {
            for piece in [1, 7, 1 << 20] {
                check_each(rt, alloc, row, (which, failure, piece))?;
            }
        }
    }
    Ok(())
}

#[test]
fn each_call_of_a_stream_fails(rt: HostRuntime) -> Result<(), Fail> {
    check_pipes(&rt, rt.alloc(), Failure::Error)
}

#[test]
fn each_call_of_a_stream_is_broken_off(rt: HostRuntime) -> Result<(), Fail> {
    check_pipes(&rt, rt.alloc(), Failure::Signal)
}
