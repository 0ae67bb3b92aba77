//! Which cells are counted.

use crate::volume::{EDGE, find_scale, plan_of};
use cell_lists::{FoundCells, count_ids};
use chunk_grid::grid;
use std::alloc::Global;
use std::process::Abort;
use std::test::Fail;

// The cells of some ids, behind that of the id 4, which a write meets.
fn count(rt: &impl Abort, alloc: Global, ids: &[u64]) -> Result<FoundCells, Fail> {
    let scale = find_scale(alloc)?;
    let plan = plan_of(alloc, &scale, &[EDGE])?;
    assert!(rt; grid(&scale).bits() <= 64);
    let mut found = FoundCells {
        cells: Vec::from_slice(alloc, &[[2, 0, 0]])?,
        count: 1,
    };
    assert!(rt; ids.len() <= 8);
    count_ids(&scale, &plan, &mut found, ids)?;
    Ok(found)
}

// The cell of the id 4 is found already, and there is none of the ids 5 and 7.
#[test]
fn counts_cells_of_ids(rt: HostRuntime) -> Result<(), Fail> {
    let found = count(&rt, rt.alloc(), &[0, 1, 4, 5, 6, 7])?;
    assert_eq!(rt; found.count, 4);
    let wanted = [[2, 0, 0], [0, 0, 0], [1, 0, 0], [2, 1, 0]];
    assert_eq!(rt; found.cells.as_slice(), wanted.as_slice());
    Ok(())
}
