//! The cells that an update stores.
ghost use Rattle.std.specs.Prelude.{◌≡◌, length};
ghost use Rattle.vol_spec.specs.StoredCells.{met_cells};

use crate::volume::{
    BAD_RANGE, EDGE, MIDDLE, Piece, SECOND_ROW, SHARD, STRANGE, TWICE, TWO_CELLS, Write,
    find_scale, plan_of, store_with,
};
use kept_cells::{KeepRefusal, gather_cells};
use memory_rows::name_of;
use std::alloc::Global;
use std::process::Abort;
use std::test::Fail;
use vol_base::{Fault, IndexFault, ShardFault};
use vol_spec::StoredScale;
use write_plan::{Chunks, Plan};

// The pieces of the shard 0, writes over it, and the cells that are stored, or the refusal.
type Row = (
    &'static [Piece<'static>],
    &'static [Write<'static>],
    Result<&'static [[u64; 3]], KeepRefusal>,
);

const ROWS: &[Row] = &[
    // What is met, in the order of the keys, and then what is kept, minishard by minishard.
    (SHARD, &[EDGE], Ok(&[[2, 0, 0], [0, 0, 0], [1, 0, 0]])),
    (SHARD, &[TWO_CELLS], Ok(&[[0, 0, 0], [1, 0, 0], [2, 0, 0]])),
    (STRANGE, &[EDGE], Ok(&[[2, 0, 0], [0, 0, 0]])),
    // The shard 1 isn't there.
    (BAD_RANGE, &[SECOND_ROW], Ok(&[[0, 1, 0]])),
    (&[], &[SECOND_ROW, EDGE], Ok(&[[2, 0, 0], [0, 1, 0]])),
    // A fault of a minishard that no write meets.
    (
        BAD_RANGE,
        &[EDGE],
        Err(KeepRefusal::BadShard {
            shard: 0,
            minishard: 1,
            fault: Fault::Shard(ShardFault::BadRange),
        }),
    ),
    (
        TWICE,
        &[SECOND_ROW, MIDDLE],
        Err(KeepRefusal::BadShard {
            shard: 0,
            minishard: 0,
            fault: Fault::Index(IndexFault::BadId { row: 1 }),
        }),
    ),
];

// How many cells some write of a plan meets.
fn count_met(plan: &Plan) -> u64
    ensures { result ≡ length (met_cells plan.now.scale plan.now.writes) }
{
    plan.jobs().len()
}

// The cells that writes store over the shard 0, or the refusal.
fn gather(
    rt: &impl Abort,
    alloc: Global,
    pieces: &[Piece],
    writes: &[Write],
) -> Result<Result<Vec<[u64; 3]>, KeepRefusal>, Fail> {
    let scale = find_scale(alloc)?;
    let plan = plan_of(alloc, &scale, writes)?;
    assert!(rt; count_met(&plan) <= 1 << 22);
    let mut store = store_with(alloc, &name_of("d/s/0.shard")?, pieces, &[])?;
    let dataset = name_of("d")?;
    let stored = StoredScale { dataset, scale };
    Ok(gather_cells(alloc, &mut store, &stored, &plan))
}

fn check(rt: &impl Abort, alloc: Global, row: &Row) -> Result<(), Fail> {
    let (pieces, writes, wanted) = row;
    match (gather(rt, alloc, pieces, writes)?, *wanted) {
        (Ok(cells), Ok(wanted)) => assert_eq!(rt; cells.as_slice(), wanted),
        (Err(refusal), Err(wanted)) => assert_eq!(rt; refusal, wanted),
        _ => return Err(Fail::from("another answer")),
    }
    Ok(())
}

fn check_rows(rt: &impl Abort, alloc: Global, rows: &[Row]) -> Result<(), Fail> {
    for row in rows {
        check(rt, alloc, row)?;
    }
    Ok(())
}

#[test]
fn gathers_cells(rt: HostRuntime) -> Result<(), Fail> {
    check_rows(&rt, rt.alloc(), ROWS)
}
