//! The shards that are written anew.

use crate::volume::{EDGE, MIDDLE, SECOND_ROW, TWO_CELLS, Write, find_scale, plan_of, sharding_of};
use std::alloc::Global;
use std::process::Abort;
use std::test::Fail;
use touched_shards::find_shards;

// Writes, and the shards that they touch.
type Row = (&'static [Write<'static>], &'static [u64]);

const ROWS: &[Row] = &[
    (&[], &[]),
    (&[SECOND_ROW], &[1]),
    (&[MIDDLE, EDGE, TWO_CELLS], &[0]),
    (&[SECOND_ROW, EDGE, SECOND_ROW], &[0, 1]),
];

// The shards that writes touch.
fn touched(alloc: Global, writes: &[Write]) -> Result<Vec<u64>, Fail> {
    let scale = find_scale(alloc)?;
    let sharding = sharding_of(&scale)?;
    let plan = plan_of(alloc, &scale, writes)?;
    let shards = find_shards(alloc, &scale, &sharding, &plan)?;
    Ok(shards)
}

fn check(rt: &impl Abort, alloc: Global, row: &Row) -> Result<(), Fail> {
    let (writes, wanted) = row;
    let shards = touched(alloc, writes)?;
    assert_eq!(rt; shards.as_slice(), *wanted);
    Ok(())
}

fn check_rows(rt: &impl Abort, alloc: Global, rows: &[Row]) -> Result<(), Fail> {
    for row in rows {
        check(rt, alloc, row)?;
    }
    Ok(())
}

#[test]
fn finds_touched_shards(rt: HostRuntime) -> Result<(), Fail> {
    check_rows(&rt, rt.alloc(), ROWS)
}
