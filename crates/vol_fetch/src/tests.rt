//! Words that are none; and fetches from a peer that tells its objects, in whatever pieces they come, each call failing in
//! turn. What is written was worked out by hand.

use crate::fetch::fetch;
use crate::words::{first_word, read_words};
use command_base::Status;
use memory_rows::{name_of, outlet_of};
use peer_dial::{Entry, PeerDial};
use std::alloc::Global;
use std::process::Abort;
use std::test::Fail;

#[test]
fn refuses_few_words(rt: HostRuntime) {
    let words = Vec::new(rt.alloc());
    assert!(rt; read_words(&words).is_none());
    assert_eq!(rt; first_word(&words), "");
}

// Objects by their names.
type Objects<'a> = &'a [(&'a str, &'a [u8])];

// Two rows of two voxels in one chunk.
const PLANE: [(&str, &[u8]); 2] = [
    (
        "d/info",
        b"{\"type\":\"image\",\"data_type\":\"uint8\",\"num_channels\":1,\"scales\":[{\"key\":\"s\",\"size\":[2,2,1],\"chunk_sizes\":[[2,2,1]],\"resolution\":[8,8,40],\"encoding\":\"raw\"}]}",
    ),
    ("d/s/0-2_0-2_0-1", &[1, 2, 3, 4]),
];

// Two chunks, the second of which is too short.
const BROKEN: [(&str, &[u8]); 3] = [
    (
        "d/info",
        b"{\"type\":\"image\",\"data_type\":\"uint8\",\"num_channels\":1,\"scales\":[{\"key\":\"s\",\"size\":[2,1,2],\"chunk_sizes\":[[2,1,1]],\"resolution\":[8,8,40],\"encoding\":\"raw\"}]}",
    ),
    ("d/s/0-2_0-1_0-1", &[5, 6]),
    ("d/s/0-2_0-1_1-2", &[7]),
];

// Four cells in as many layers, of two channels, in one minishard: the entry, the chunks, and four rows.
const LAYERS: [(&str, &[u8]); 2] = [
    (
        "d/info",
        b"{\"type\":\"image\",\"data_type\":\"uint8\",\"num_channels\":2,\"scales\":[{\"key\":\"s\",\"size\":[1,1,4],\"chunk_sizes\":[[1,1,1]],\"resolution\":[8,8,40],\"encoding\":\"raw\",\"sharding\":{\"@type\":\"neuroglancer_uint64_sharded_v1\",\"preshift_bits\":0,\"hash\":\"identity\",\"minishard_bits\":0,\"shard_bits\":0}}]}",
    ),
    (
        "d/s/0.shard",
        &[
            8, 0, 0, 0, 0, 0, 0, 0, 104, 0, 0, 0, 0, 0, 0, 0, 1, 5, 2, 6, 3, 7, 4, 8, 0, 0, 0, 0,
            0, 0, 0, 0, 1, 0, 0, 0, 0, 0, 0, 0, 1, 0, 0, 0, 0, 0, 0, 0, 1, 0, 0, 0, 0, 0, 0, 0, 0,
            0, 0, 0, 0, 0, 0, 0, 0, 0, 0, 0, 0, 0, 0, 0, 0, 0, 0, 0, 0, 0, 0, 0, 0, 0, 0, 0, 0, 0,
            0, 0, 2, 0, 0, 0, 0, 0, 0, 0, 2, 0, 0, 0, 0, 0, 0, 0, 2, 0, 0, 0, 0, 0, 0, 0, 2, 0, 0,
            0, 0, 0, 0, 0,
        ],
    ),
];

// Objects, a key and a box, and the status, the values and the line that is told.
const ROWS: [(Objects, &str, &str, Status, &[u8], &str); 7] = [
    (&PLANE, "s", "[1:2,0:2,0:1]", Status::Ok, &[2, 4], ""),
    (
        &LAYERS,
        "s",
        "[0:1,0:1,0:4]",
        Status::Ok,
        &[1, 2, 3, 4, 5, 6, 7, 8],
        "",
    ),
    (&LAYERS, "s", "[0:1,0:1,1:3]", Status::Ok, &[2, 3, 6, 7], ""),
    (
        &BROKEN,
        "s",
        "[0:2,0:1,0:2]",
        Status::Damaged,
        &[5, 6],
        "damaged 0,0,1: chunk length 1 wanted 2\n",
    ),
    (
        &PLANE,
        "t",
        "[1:2,0:2,0:1]",
        Status::InfoRefused,
        &[],
        "info of d: scale absent\n",
    ),
    (
        &PLANE,
        "s",
        "[1:3,0:2,0:1]",
        Status::RequestRefused,
        &[],
        "box [1:3,0:2,0:1] outside [0:2,0:2,0:1]\n",
    ),
    (
        &[],
        "s",
        "[1:2,0:2,0:1]",
        Status::InfoRefused,
        &[],
        "info of d: absent\n",
    ),
];

// A peer that serves objects of the data set d, and gives so many bytes at a time.
fn peer_of(
    alloc: Global,
    objects: Objects,
    piece: usize,
    failing: &[u64],
) -> Result<PeerDial, Fail> {
    let mut entries = Vec::new(alloc);
    for (name, bytes) in objects {
        entries.push(Entry::new(name_of(name)?, bytes.to_vec(alloc)?))?;
    }
    Ok(PeerDial::new(
        alloc,
        entries,
        name_of("d")?,
        piece.max(1),
        failing.to_vec(alloc)?,
    ))
}

// Whether a fetch ends as it should, or, where it writes a front of that, with a store fault. It dials once.
fn ends_well(
    rt: &impl Abort,
    alloc: Global,
    dial: PeerDial,
    row: &(Objects, &str, &str, Status, &[u8], &str),
) -> Result<bool, Fail> {
    let (_objects, key, part, wanted, values, line) = row;
    let mut words = Vec::new(alloc);
    for word in ["localhost", "8080", "d", key, part] {
        words.push(String::from_str(alloc, word)?)?;
    }
    let mut out = outlet_of(alloc, 100, &[])?;
    let mut err = outlet_of(alloc, 100, &[])?;
    let (status, store) = fetch(alloc, &words, dial, &mut out, &mut err);
    let Some(store) = store else {
        return Err("no memory".into());
    };
    assert!(rt; store.dial.dials() <= 1, "at {part}");
    if status == Status::StoreFault {
        assert!(rt; err.written() == b"store fault\n".as_slice());
        assert!(rt; values.starts_with(out.written()), "at {part}");
        return Ok(false);
    }
    assert_eq!(rt; status, *wanted, "at {part}");
    assert!(rt; out.written() == *values, "at {part}");
    assert!(rt; err.written() == line.as_bytes(), "at {part}");
    Ok(true)
}

#[test]
fn fetches_what_is_there(rt: HostRuntime) -> Result<(), Fail> {
    for row in &ROWS {
        for piece in [1, 9, 100_000] {
            let dial = peer_of(rt.alloc(), row.0, piece, &[])?;
            assert!(rt; ends_well(&rt, rt.alloc(), dial, row)?);
        }
    }
    Ok(())
}

// Each call of the dial fails in turn, until none does.
#[test]
fn tells_each_failure(rt: HostRuntime) -> Result<(), Fail> {
    for row in &ROWS {
        let mut calls = 0u64;
        for call in 0..1000 {
            let dial = peer_of(rt.alloc(), row.0, 1000, &[call])?;
            if ends_well(&rt, rt.alloc(), dial, row)? {
                break;
            }
            calls = call.saturating_add(1);
        }
        assert!(rt; 2 < calls && calls < 1000, "{calls} calls");
    }
    Ok(())
}
