//! What is kept of one index.
ghost use Rattle.std.specs.Prelude.{◌≡◌, IfOk, length};

use crate::volume::{BAD_RANGE, Piece, SHARD, STRANGE, TWICE, find_scale, sharding_of, store_with};
use memory_rows::name_of;
use shard_index::ShardPlace;
use shard_keeper::{KeepFault, keep_index};
use std::alloc::{AllocError, Global};
use std::process::Abort;
use std::test::Fail;
use vol_base::{Fault, IndexFault, ShardFault};

// A minishard of the shard 0, of such pieces; what keeping its index answers, and, where that is Ok, the ids behind the id 9.
#[derive(Clone, Copy)]
struct Row<'a> {
    pieces: &'a [Piece<'a>],
    minishard: u64,
    answer: Result<bool, KeepFault>,
    kept: &'a [u64],
}

const FIRST: Row = Row {
    pieces: SHARD,
    minishard: 0,
    answer: Ok(true),
    kept: &[9, 0, 4],
};

const ROWS: &[Row] = &[
    FIRST,
    Row {
        minishard: 1,
        kept: &[9, 1],
        ..FIRST
    },
    Row {
        pieces: STRANGE,
        minishard: 1,
        kept: &[9, 5],
        ..FIRST
    },
    Row {
        pieces: &[(&[], &[0, 0, 0, 0])],
        kept: &[9],
        ..FIRST
    },
    Row {
        pieces: TWICE,
        answer: Err(KeepFault::Damaged(Fault::Index(IndexFault::BadId { row: 1 }))),
        ..FIRST
    },
    Row {
        pieces: BAD_RANGE,
        minishard: 1,
        answer: Err(KeepFault::Damaged(Fault::Shard(ShardFault::BadRange))),
        ..FIRST
    },
    Row {
        pieces: &[],
        answer: Ok(false),
        kept: &[9],
        ..FIRST
    },
];

const UNREAD: Row = Row {
    answer: Err(KeepFault::NotRead),
    ..FIRST
};

fn column(alloc: Global) -> Result<Vec<u8>, AllocError>
    ensures { IfOk result (λ bytes. length bytes.items ≡ 8192) }
{
    vec![in alloc; 0; 8192]
}

// What keeping the index of a row answers, while calls of the store fail. The ids are put behind those that are kept.
fn keep(
    rt: &impl Abort,
    alloc: Global,
    row: &Row,
    failing: &[u64],
    kept: &mut Vec<u64>,
) -> Result<Result<bool, KeepFault>, Fail> {
    let scale = find_scale(alloc)?;
    let sharding = sharding_of(&scale)?;
    let name = name_of("d/s/0.shard")?;
    let mut store = store_with(alloc, &name, row.pieces, failing)?;
    let home = ShardPlace {
        shard: 0,
        minishard: row.minishard,
    };
    assert!(rt; home.minishard < 1 << sharding.minishard_bits);
    let mut ids = column(alloc)?;
    let mut starts = column(alloc)?;
    let mut sizes = column(alloc)?;
    Ok(keep_index(
        &mut store,
        &name,
        &sharding,
        &home,
        &mut ids,
        &mut starts,
        &mut sizes,
        kept,
    ))
}

fn check(rt: &impl Abort, alloc: Global, row: &Row, failing: &[u64]) -> Result<(), Fail> {
    let mut kept = Vec::from_slice(alloc, &[9])?;
    let answer = keep(rt, alloc, row, failing, &mut kept)?;
    assert_eq!(rt; answer, row.answer);
    assert!(rt; answer.is_err() || kept.as_slice() == row.kept);
    Ok(())
}

fn check_rows(rt: &impl Abort, alloc: Global, rows: &[Row]) -> Result<(), Fail> {
    for row in rows {
        check(rt, alloc, row, &[])?;
    }
    Ok(())
}

#[test]
fn keeps_what_belongs_there(rt: HostRuntime) -> Result<(), Fail> {
    check_rows(&rt, rt.alloc(), ROWS)
}

// The calls of the store are the length, the entry, and three columns.
#[test]
fn tells_failing_calls(rt: HostRuntime) -> Result<(), Fail> {
    for call in 0..5 {
        check(&rt, rt.alloc(), &UNREAD, &[call])?;
    }
    Ok(())
}
