//! Objects of scales with several chunk sizes, worked out by hand.

ghost use Rattle.std.specs.Prelude.{◌≤◌, length};

use memory_rows::{name_of, store_of};
use std::alloc::Global;
use std::process::Abort;
use std::test::Fail;
use view_judge::{ViewFault, ViewJudge, ViewsReport, count_view_cells};
use vol_base::{Box3, ChunkFault, Fault, MemoryStore, Name};
use vol_spec::{ChunkSizes, Encoding, Scale, StoredScale};

// Four voxels in one cell, and in two.
fn row_scale(key: Name) -> Scale
    requires { length key ≤ 200 }
{
    let mut more = ChunkSizes::none();
    more.push([2, 1, 1]);
    Scale {
        key,
        width: 1,
        channels: 1,
        size: [4, 1, 1],
        offset: [0; 3],
        chunk: [4, 1, 1],
        encoding: Encoding::Raw,
        sharding: None,
        more,
    }
}

// Two by two voxels of two channels in one cell, in two columns, and in two rows.
fn square_scale(key: Name) -> Scale
    requires { length key ≤ 200 }
{
    let mut more = ChunkSizes::none();
    more.push([1, 2, 1]);
    more.push([2, 1, 1]);
    Scale {
        key,
        width: 1,
        channels: 2,
        size: [2, 2, 1],
        offset: [0; 3],
        chunk: [2, 2, 1],
        encoding: Encoding::Raw,
        sharding: None,
        more,
    }
}

// The objects of a scale, those calls of the store that fail, the part that is judged, and the answer.
#[derive(Drop)]
struct Row<'a> {
    objects: &'a [(&'a str, &'a [u8])],
    failing: &'a [u64],
    part: Box3,
    answer: Result<ViewsReport, ViewFault>,
}

fn check<R: Abort>(rt: &R, alloc: Global, scale: &Scale, row: &Row) -> Result<(), Fail> {
    let dataset = name_of("d")?;
    let mut store = store_of(alloc, row.objects, row.failing)?;
    let stored = StoredScale::of(&dataset, scale);
    let mut judge = match ViewJudge::reserve(alloc, &stored) {
        Ok(judge) => judge,
        Err(_) => return Err("there is memory".into()),
    };
    assert!(rt; chunk_grid::inside(scale, &row.part));
    assert!(rt; count_view_cells(scale, &row.part) <= 1 << 22);
    assert_eq!(rt; judge.judge(&mut store, &row.part), row.answer);
    Ok(())
}

const ROW: Box3 = Box3 {
    begin: [0, 0, 0],
    size: [4, 1, 1],
};

// Of these the last chunk of the second size isn't the first one's.
const OTHER: [(&str, &[u8]); 3] = [
    ("d/s/0-4_0-1_0-1", &[1, 2, 3, 4]),
    ("d/s/0-2_0-1_0-1", &[1, 2]),
    ("d/s/2-4_0-1_0-1", &[3, 5]),
];

const FOUR: [(&str, &[u8]); 3] = [
    ("d/s/0-4_0-1_0-1", &[1, 2, 3, 4]),
    ("d/s/0-2_0-1_0-1", &[1, 2]),
    ("d/s/2-4_0-1_0-1", &[3, 4]),
];

#[test]
fn judges_a_row(rt: HostRuntime) -> Result<(), Fail> {
    let alloc = rt.alloc();
    let scale = row_scale(name_of("s")?);
    let sound = Ok(ViewsReport {
        cells: 2,
        stored: 2,
        absent: 0,
    });
    let differs = Err(ViewFault::Differs {
        view: 1,
        at: [3, 0, 0],
        channel: 0,
        found: 5,
        wanted: 4,
    });
    let three = Box3 {
        begin: [0, 0, 0],
        size: [3, 1, 1],
    };
    for (objects, part, answer) in [
        (&FOUR, ROW, sound),
        (&OTHER, ROW, differs),
        (&OTHER, three, sound),
    ] {
        let row = Row {
            objects,
            failing: &[],
            part,
            answer,
        };
        check(&rt, alloc, &scale, &row)?;
    }
    Ok(())
}

#[test]
fn judges_chunks(rt: HostRuntime) -> Result<(), Fail> {
    let alloc = rt.alloc();
    let scale = row_scale(name_of("s")?);
    let short = Row {
        objects: &[
            ("d/s/0-4_0-1_0-1", &[1, 2, 3, 4]),
            ("d/s/0-2_0-1_0-1", &[1, 2]),
            ("d/s/2-4_0-1_0-1", &[3]),
        ],
        failing: &[],
        part: ROW,
        answer: Err(ViewFault::Damaged {
            view: 1,
            cell: [1, 0, 0],
            fault: Fault::Chunk(ChunkFault::ChunkLength {
                found: 1,
                wanted: 2,
            }),
        }),
    };
    let zeros = Row {
        objects: &[
            ("d/s/0-4_0-1_0-1", &[1, 2, 0, 0]),
            ("d/s/0-2_0-1_0-1", &[1, 2]),
        ],
        failing: &[],
        part: ROW,
        answer: Ok(ViewsReport {
            cells: 2,
            stored: 1,
            absent: 1,
        }),
    };
    let first = Row {
        objects: &[("d/s/0-4_0-1_0-1", &[1]), ("d/s/0-2_0-1_0-1", &[1, 2])],
        failing: &[],
        part: ROW,
        answer: Err(ViewFault::First {
            cell: [0, 0, 0],
            fault: Fault::Chunk(ChunkFault::ChunkLength {
                found: 1,
                wanted: 4,
            }),
        }),
    };
    for row in [&short, &zeros, &first] {
        check(&rt, alloc, &scale, row)?;
    }
    Ok(())
}

// Of a view that differs: two lengths, a region's two chunks and the first view's beside them; and then of each cell the
// length, its chunk and the first view's.
#[test]
fn tells_calls_that_fail(rt: HostRuntime) -> Result<(), Fail> {
    let alloc = rt.alloc();
    let scale = row_scale(name_of("s")?);
    for call in 0..11 {
        let row = Row {
            objects: &OTHER,
            failing: &[call],
            part: ROW,
            answer: Err(ViewFault::StoreFault),
        };
        check(&rt, alloc, &scale, &row)?;
    }
    Ok(())
}

// The values 1 to 4 of channel 0 and 5 to 8 of channel 1, in one cell, in columns and in rows.
const SQUARE: (&str, &[u8]) = ("d/s/0-2_0-2_0-1", &[1, 2, 3, 4, 5, 6, 7, 8]);

const LEFT: (&str, &[u8]) = ("d/s/0-1_0-2_0-1", &[1, 3, 5, 7]);

const RIGHT: (&str, &[u8]) = ("d/s/1-2_0-2_0-1", &[2, 4, 6, 8]);

const UPPER: (&str, &[u8]) = ("d/s/0-2_0-1_0-1", &[1, 2, 5, 6]);

const LOWER: (&str, &[u8]) = ("d/s/0-2_1-2_0-1", &[3, 4, 7, 8]);

#[test]
fn judges_a_square(rt: HostRuntime) -> Result<(), Fail> {
    let alloc = rt.alloc();
    let scale = square_scale(name_of("s")?);
    let part = Box3 {
        begin: [0, 0, 0],
        size: [2, 2, 1],
    };
    let sound = Row {
        objects: &[SQUARE, LEFT, RIGHT, UPPER, LOWER],
        failing: &[],
        part,
        answer: Ok(ViewsReport {
            cells: 4,
            stored: 4,
            absent: 0,
        }),
    };
    // A later position of channel 0 is told before channel 1 of the first one.
    let channels = Row {
        objects: &[
            SQUARE,
            ("d/s/0-1_0-2_0-1", &[1, 8, 9, 7]),
            RIGHT,
            UPPER,
            LOWER,
        ],
        failing: &[],
        part,
        answer: Err(ViewFault::Differs {
            view: 1,
            at: [0, 1, 0],
            channel: 0,
            found: 8,
            wanted: 3,
        }),
    };
    let second = Row {
        objects: &[
            SQUARE,
            LEFT,
            RIGHT,
            UPPER,
            ("d/s/0-2_1-2_0-1", &[3, 4, 7, 9]),
        ],
        failing: &[],
        part,
        answer: Err(ViewFault::Differs {
            view: 2,
            at: [1, 1, 0],
            channel: 1,
            found: 9,
            wanted: 8,
        }),
    };
    for row in [&sound, &channels, &second] {
        check(&rt, alloc, &scale, row)?;
    }
    Ok(())
}

// Five by four voxels in cells of two by two; in rows of four, so that regions have four by two; and in cells of three
// by three, which are regions too.
fn plane_scale(key: Name) -> Scale
    requires { length key ≤ 200 }
{
    let mut more = ChunkSizes::none();
    more.push([4, 1, 1]);
    more.push([3, 3, 1]);
    Scale {
        key,
        width: 1,
        channels: 1,
        size: [5, 4, 1],
        offset: [0; 3],
        chunk: [2, 2, 1],
        encoding: Encoding::Raw,
        sharding: None,
        more,
    }
}

// The values 1 to 20, x fastest.
const PLANE: [(&str, &[u8]); 18] = [
    ("d/s/0-2_0-2_0-1", &[1, 2, 6, 7]),
    ("d/s/2-4_0-2_0-1", &[3, 4, 8, 9]),
    ("d/s/4-5_0-2_0-1", &[5, 10]),
    ("d/s/0-2_2-4_0-1", &[11, 12, 16, 17]),
    ("d/s/2-4_2-4_0-1", &[13, 14, 18, 19]),
    ("d/s/4-5_2-4_0-1", &[15, 20]),
    ("d/s/0-4_0-1_0-1", &[1, 2, 3, 4]),
    ("d/s/4-5_0-1_0-1", &[5]),
    ("d/s/0-4_1-2_0-1", &[6, 7, 8, 9]),
    ("d/s/4-5_1-2_0-1", &[10]),
    ("d/s/0-4_2-3_0-1", &[11, 12, 13, 14]),
    ("d/s/4-5_2-3_0-1", &[15]),
    ("d/s/0-4_3-4_0-1", &[16, 17, 18, 19]),
    ("d/s/4-5_3-4_0-1", &[20]),
    ("d/s/0-3_0-3_0-1", &[1, 2, 3, 6, 7, 8, 11, 12, 13]),
    ("d/s/3-5_0-3_0-1", &[4, 5, 9, 10, 14, 15]),
    ("d/s/0-3_3-4_0-1", &[16, 17, 18]),
    ("d/s/3-5_3-4_0-1", &[19, 20]),
];

// The plane with other bytes in some of its objects.
fn check_plane<R: Abort>(
    rt: &R,
    alloc: Global,
    changes: &[(usize, &[u8])],
    part: Box3,
    answer: Result<ViewsReport, ViewFault>,
) -> Result<(), Fail> {
    let scale = plane_scale(name_of("s")?);
    let mut objects: [(&str, &[u8]); 18] = PLANE;
    for (k, bytes) in changes {
        assert!(rt; *k < 18);
        objects[*k].1 = *bytes;
    }
    let row = Row {
        objects: &objects,
        failing: &[],
        part,
        answer,
    };
    check(rt, alloc, &scale, &row)
}

const WHOLE_PLANE: Box3 = Box3 {
    begin: [0, 0, 0],
    size: [5, 4, 1],
};

// Three columns of its two inner rows.
const MIDDLE: Box3 = Box3 {
    begin: [1, 1, 0],
    size: [3, 2, 1],
};

// So many chunks, all stored.
const fn all_stored(cells: u64) -> Result<ViewsReport, ViewFault> {
    Ok(ViewsReport {
        cells,
        stored: cells,
        absent: 0,
    })
}

// A value of channel 0 that differs.
const fn differs(
    view: u32,
    at: [i64; 3],
    found: u64,
    wanted: u64,
) -> Result<ViewsReport, ViewFault> {
    Err(ViewFault::Differs {
        view,
        at,
        channel: 0,
        found,
        wanted,
    })
}

#[test]
fn compares_regions(rt: HostRuntime) -> Result<(), Fail> {
    let rows: [(&[(usize, &[u8])], Box3, Result<ViewsReport, ViewFault>); 6] = [
        (&[], WHOLE_PLANE, all_stored(12)),
        (&[], MIDDLE, all_stored(4)),
        // in the last region of a view, and outside a part
        (&[(13, &[21])], WHOLE_PLANE, differs(1, [4, 3, 0], 21, 20)),
        (&[(13, &[21])], MIDDLE, all_stored(4)),
        (&[(17, &[19, 0])], WHOLE_PLANE, differs(2, [4, 3, 0], 0, 20)),
        // the first region has the second row's cell, and the second one the cell before it
        (
            &[(7, &[50]), (8, &[60, 7, 8, 9])],
            WHOLE_PLANE,
            differs(1, [4, 0, 0], 50, 5),
        ),
    ];
    for (changes, part, answer) in &rows {
        check_plane(&rt, rt.alloc(), changes, *part, *answer)?;
    }
    Ok(())
}

// In the second region of a view, and beside it.
#[test]
fn tells_faults_behind_a_region(rt: HostRuntime) -> Result<(), Fail> {
    let own = Err(ViewFault::Damaged {
        view: 1,
        cell: [1, 1, 0],
        fault: Fault::Chunk(ChunkFault::ChunkLength {
            found: 2,
            wanted: 1,
        }),
    });
    let first = Err(ViewFault::First {
        cell: [2, 0, 0],
        fault: Fault::Chunk(ChunkFault::ChunkLength {
            found: 1,
            wanted: 2,
        }),
    });
    check_plane(&rt, rt.alloc(), &[(9, &[10, 10])], WHOLE_PLANE, own)?;
    check_plane(&rt, rt.alloc(), &[(2, &[5])], WHOLE_PLANE, first)
}

// Rows of 2^14 voxels, and columns of as many: a region as long as both would have 2^28 bytes.
fn long_scale(key: Name) -> Scale
    requires { length key ≤ 200 }
{
    let mut more = ChunkSizes::none();
    more.push([1, 1 << 14, 1]);
    Scale {
        key,
        width: 1,
        channels: 1,
        size: [1 << 14, 1 << 14, 1],
        offset: [0; 3],
        chunk: [1 << 14, 1, 1],
        encoding: Encoding::Raw,
        sharding: None,
        more,
    }
}

#[test]
fn compares_long_cells(rt: HostRuntime) -> Result<(), Fail> {
    let row = Row {
        objects: &[],
        failing: &[],
        part: Box3 {
            begin: [5, 6, 0],
            size: [2, 3, 1],
        },
        answer: Ok(ViewsReport {
            cells: 2,
            stored: 0,
            absent: 2,
        }),
    };
    check(&rt, rt.alloc(), &long_scale(name_of("s")?), &row)
}
