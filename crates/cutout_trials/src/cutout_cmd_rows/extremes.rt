//! Cutouts of shards of two voxels whose entries and rows have extreme numbers. What each answers was worked out by hand from
//! docs/format.md.

use super::damages::check_object;
use crate::shards::{Numbers, ONE_INDEX, ONE_MINISHARD, TWO_INDEXES, TWO_MINISHARDS, changed};
use std::alloc::Global;
use std::process::Abort;
use std::test::Fail;

// Numbers of eight bytes, each put at a place of a shard; and what each cell's value is, or the line of its refusal.
#[derive(Clone, Copy)]
struct Extreme<'a> {
    info: &'a [u8],
    shard: &'a [u8],
    numbers: Numbers,
    cells: &'a [(&'a str, &'a [u8], &'a str)],
}

const FIRST: &str = "[0:1,0:1,0:1]";

const SECOND: &str = "[1:2,0:1,0:1]";

const EXTREMES: &[Extreme] = &[
    Extreme {
        info: TWO_MINISHARDS,
        shard: TWO_INDEXES,
        numbers: &[],
        cells: &[(FIRST, &[10], ""), (SECOND, &[11], "")],
    },
    Extreme {
        info: ONE_MINISHARD,
        shard: ONE_INDEX,
        numbers: &[],
        cells: &[(FIRST, &[10], ""), (SECOND, &[11], "")],
    },
    Extreme {
        info: TWO_MINISHARDS,
        shard: TWO_INDEXES,
        numbers: &[(0, 25), (8, 1)],
        cells: &[
            (FIRST, &[], "damaged 0,0,0: shard bad range\n"),
            (SECOND, &[11], ""),
        ],
    },
    Extreme {
        info: ONE_MINISHARD,
        shard: ONE_INDEX,
        numbers: &[(8, 100663322)],
        cells: &[
            (FIRST, &[], "damaged 0,0,0: shard too many rows 4194305\n"),
            (SECOND, &[], "damaged 1,0,0: shard too many rows 4194305\n"),
        ],
    },
    Extreme {
        info: TWO_MINISHARDS,
        shard: TWO_INDEXES,
        numbers: &[(0, u64::MAX - 24), (8, u64::MAX)],
        cells: &[
            (FIRST, &[], "damaged 0,0,0: shard short minishard\n"),
            (SECOND, &[11], ""),
        ],
    },
    Extreme {
        info: ONE_MINISHARD,
        shard: ONE_INDEX,
        numbers: &[(18, u64::MAX)],
        cells: &[(FIRST, &[0], ""), (SECOND, &[0], "")],
    },
    Extreme {
        info: ONE_MINISHARD,
        shard: ONE_INDEX,
        numbers: &[(50, u64::MAX)],
        cells: &[
            (
                FIRST,
                &[],
                "damaged 0,0,0: chunk too long 18446744073709551615 limit 1\n",
            ),
            (SECOND, &[], "damaged 1,0,0: index start 1\n"),
        ],
    },
];

// Each cell alone.
fn check_cells(rt: &impl Abort, alloc: Global, extreme: &Extreme) -> Result<(), Fail> {
    let bytes = changed(alloc, extreme.shard, extreme.numbers)?;
    for (part, out, err) in extreme.cells {
        let name = "d/s/0.shard";
        check_object(rt, alloc, extreme.info, name, &bytes, part, out, err)?;
    }
    Ok(())
}

#[test]
fn tells_extreme_numbers(rt: HostRuntime) -> Result<(), Fail> {
    for extreme in EXTREMES {
        check_cells(&rt, rt.alloc(), extreme)?;
    }
    Ok(())
}
