//! The commands.
use reduce_laws::Method;
use vol_base::{Box3, Name};

/// A command and its arguments. Names have at most 200 bytes.
#[derive(Drop)]
pub enum Command {
    /// `cutout DATASET KEY BOX`: the values of a box.
    Cutout {
        dataset: Name,
        key: Name,
        part: Box3,
    },
    /// `write DATASET KEY [--workers=N]`: a stream of writes into an empty scale, by 1 to 16 workers.
    Write {
        dataset: Name,
        key: Name,
        workers: u32,
    },
    /// `update DATASET KEY [--workers=N]`: a stream of writes over what a scale holds, by 1 to 16 workers.
    Update {
        dataset: Name,
        key: Name,
        workers: u32,
    },
    /// `generate DATASET KEY NUMBER WRITES [--workers=N]`: at most 4,096 writes that are made from a number
    /// below 2^31, into an empty scale, by 1 to 16 workers.
    Generate {
        dataset: Name,
        key: Name,
        number: u32,
        writes: u32,
        workers: u32,
    },
    /// `verify DATASET KEY [BOX]`: whether the stored chunks of a box are sound, or of all of the scale.
    Verify {
        dataset: Name,
        key: Name,
        part: Option<Box3>,
    },
    /// `reshard DATASET KEY DATASET2 KEY2 [--workers=N]`: a scale into an empty one of another layout, by 1 to 16
    /// workers.
    Reshard {
        dataset: Name,
        key: Name,
        to_dataset: Name,
        to_key: Name,
        workers: u32,
    },
    /// `downsample DATASET KEY KEY2 --method=mode|mean [--workers=N]`: a scale into an empty one of half the
    /// resolution, by 1 to 16 workers.
    Downsample {
        dataset: Name,
        key: Name,
        to_key: Name,
        method: Method,
        workers: u32,
    },
    /// `serve DATASET --port=P --connections=N`: its objects by byte ranges, to 1 to 65,536 peers one after the
    /// other, at a port of the machine, or a free one for 0.
    Serve {
        dataset: Name,
        port: u16,
        connections: u32,
    },
}
