//! Calls of the layers that no command reaches yet, for measuring. The words are any number of kinds, each with its
//! numbers behind it, and each kind's line has a sum of what was made, to be compared with a plain program's:
//!
//! - `codes COUNT X Y Z`: the codes of so many cells of a grid of this size; `hashes COUNT`: so many hashes;
//! - `decode` or `encode` with `-boxes`, `-cells`, `-labels` or `-noise` behind it, and a count: so often a chunk of
//!   64 x 64 x 64 wide values in blocks of 8 x 8 x 8 is read or written;
//! - `short` or `long`, and a count: so often a chunk of 2^16 or 2^20 blocks of one voxel is written, with almost as many
//!   values as voxels; with `-again` behind it over a third of the values have come before, with `-labels` there are
//!   some 40.
#![tactic(auto)]

mod ids;
mod segments;

use ids::{sum_codes, sum_hashes};
use segments::sum_chunks;
use std::alloc::Global;
use std::{env, io};
use vol_base::OutOfMemory;

fn read_number(words: &mut env::Args) -> u64 {
    words.next().and_then(|word| word.parse().ok()).unwrap_or(1)
}

fn read_size(words: &mut env::Args) -> [u64; 3] {
    let x = read_number(words);
    let y = read_number(words);
    let z = read_number(words);
    [x, y, z]
}

fn sum_of(
    alloc: Global,
    kind: &str,
    count: u64,
    words: &mut env::Args,
) -> Result<u64, OutOfMemory> {
    match kind {
        "codes" => Ok(sum_codes(read_size(words), count)),
        "hashes" => Ok(sum_hashes(count)),
        _ => sum_chunks(alloc, kind, count),
    }
}

// The words name at most so many kinds.
const MOST: u32 = 16;

fn main(rt: HostRuntime) -> io::Result<()> {
    let mut words = env::args(&rt)?;
    words.next();
    for _ in 0..MOST {
        let Some(kind) = words.next() else {
            break;
        };
        let count = read_number(&mut words);
        match sum_of(rt.alloc(), kind.as_str(), count, &mut words) {
            Ok(sum) => println!(&rt; "{kind} {count} {sum}")?,
            Err(_) => println!(&rt; "{kind} {count} out of memory")?,
        }
    }
    Ok(())
}
