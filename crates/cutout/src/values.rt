//! The values of a cell's chunk, put into those of a part.
ghost use Rattle.std.specs.Prelude.{◌≡◌, ◌≢◌, ◌≤◌, length, None, Ok, OnOk, Some};
ghost use Rattle.std.specs.Result.{result_err};
ghost use Rattle.segment_cells.specs.Decoding.{HoldsValues};
ghost use Rattle.vol_spec.specs.Encodings.{chunk_fault, raw_size};
ghost use Rattle.cutout.specs.Opened.{values_room};
ghost use Rattle.cutout.specs.Reading.{Puts, Took};
ghost use Rattle.cutout.specs.Targets.{IsBoxed, IsTarget};

use crate::boxed::BoxedCell;
use crate::channels::{Channels, pick};
use chunk_grid::byte_len;
use segment_cells::decode_cell;
use vol_base::{Box3, ChunkFault};
use vol_spec::{Encoding, Scale};
use voxel_raw::{check_len, common_part, copy_box, fill_box};

// Puts the values of a cell, in some channels, into those of a part.
fn put_values(
    values: &[u8],
    scale: &Scale,
    home: &BoxedCell,
    part: &Box3,
    channels: Channels,
    out: &mut [u8],
)
    requires home { IsBoxed scale.now home.now }
    requires values { length values.now ≡ raw_size scale.now home.now.cell }
    requires target { IsTarget scale.now part.now channels (length out.old) }
    ensures { Puts scale.now home.now.cell part.now channels values.now out.old out.new }
{
    let common = common_part(&home.own, part);
    let picked = pick(values, scale, home.cell, channels);
    copy_box(
        picked,
        &home.own,
        out,
        part,
        &common,
        channels.count,
        scale.width,
    );
}

/// Puts zeros, for a cell that has no chunk.
pub(crate) fn put_zeros(
    scale: &Scale,
    home: &BoxedCell,
    part: &Box3,
    channels: Channels,
    out: &mut [u8],
)
    requires home { IsBoxed scale.now home.now }
    requires target { IsTarget scale.now part.now channels (length out.old) }
    ensures { Took scale.now home.now.cell part.now channels (Ok None) out.old out.new }
{
    let common = common_part(&home.own, part);
    fill_box(out, part, &common, channels.count, scale.width);
}

// How many bytes of values a chunk that is decoded has.
fn decoded_len(scale: &Scale, home: &BoxedCell) -> usize
    requires home { IsBoxed scale.now home.now }
    requires decoded { scale.now.encoding ≢ Encoding.Raw }
    ensures len { result ≡ raw_size scale.now home.now.cell }
    ensures room { result ≤ values_room scale.now }
{
    byte_len(&home.own, scale.channels, scale.width) as usize
}

/// Puts the values of a cell's chunk, which is decoded once, whole, where it is segmented; or tells the chunk's
/// first fault. `values` has room for what is decoded.
pub(crate) fn put_chunk(
    bytes: &[u8],
    scale: &Scale,
    home: &BoxedCell,
    values: &mut [u8],
    part: &Box3,
    channels: Channels,
    out: &mut [u8],
) -> Result<(), ChunkFault>
    requires home { IsBoxed scale.now home.now }
    requires room { values_room scale.now ≤ length values.old }
    requires target { IsTarget scale.now part.now channels (length out.old) }
    ensures fault { result_err result ≡ chunk_fault scale.now home.now.cell bytes.now }
    ensures took { OnOk result (Took scale.now home.now.cell part.now channels (Ok (Some bytes.now))
        out.old out.new) }
{
    match scale.encoding {
        Encoding::Raw => {
            check_len(bytes.len() as u64, &home.own, scale.channels, scale.width)?;
            put_values(bytes, scale, home, part, channels, out);
            Ok(())
        }
        Encoding::Seg { block } => {
            let len = decoded_len(scale, home);
            let values = &mut values[..len];
            decode_cell(bytes, scale, home.cell, block, values)?;
            put_values(values, scale, home, part, channels, out);
            Ok(())
        }
    }
}

/// Puts all values of a cell's chunk, or tells the chunk's first fault. Values that are stored as they are are copied at once.
pub(crate) fn put_cell(
    bytes: &[u8],
    scale: &Scale,
    home: &BoxedCell,
    out: &mut [u8],
) -> Result<(), ChunkFault>
    requires home { IsBoxed scale.now home.now }
    requires len { length out.old ≡ raw_size scale.now home.now.cell }
    ensures fault { result_err result ≡ chunk_fault scale.now home.now.cell bytes.now }
    ensures held { OnOk result (HoldsValues scale.now home.now.cell bytes.now out.new) }
{
    match scale.encoding {
        Encoding::Raw => {
            check_len(bytes.len() as u64, &home.own, scale.channels, scale.width)?;
            out.copy_from_slice(bytes);
            Ok(())
        }
        Encoding::Seg { block } => decode_cell(bytes, scale, home.cell, block, out),
    }
}

/// Judges the bytes of a cell's chunk alone: by their length where they are the values, else by decoding them
/// into `values`, which has room for what is decoded.
pub(crate) fn judge_bytes(
    bytes: &[u8],
    scale: &Scale,
    home: &BoxedCell,
    values: &mut [u8],
) -> Result<(), ChunkFault>
    requires home { IsBoxed scale.now home.now }
    requires room { values_room scale.now ≤ length values.old }
    ensures { result_err result ≡ chunk_fault scale.now home.now.cell bytes.now }
{
    match scale.encoding {
        Encoding::Raw => check_len(bytes.len() as u64, &home.own, scale.channels, scale.width),
        Encoding::Seg { block } => {
            let len = decoded_len(scale, home);
            decode_cell(bytes, scale, home.cell, block, &mut values[..len])
        }
    }
}
