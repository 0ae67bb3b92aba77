//! What a job's frame hands out.
ghost use Rattle.std.specs.Prelude.{◌≡◌, ◌-◌, ◌<◌, ◌≤◌, get_or, length, take, IfSome, Some};
ghost use Rattle.vol_spec.specs.Encodings.{raw_size};
ghost use Rattle.vol_spec.specs.Limits.{limit_of};
ghost use Rattle.copy_laws.specs.Twins.{said_raw};
ghost use Rattle.copier.specs.Filled.{Fills};
ghost use Rattle.copier.specs.Frames.{IsKept, values_in};
ghost use Rattle.copier.specs.declared.frame.JobFrame.{JobFrame};
ghost use Rattle.copier.specs.declared.frame.OwnChunk.{OwnChunk};

use crate::frame::{JobFrame, OwnChunk};
use segment_cells::decode_cell;
use vol_base::tell_bytes;
use vol_spec::{Encoding, Scale};

/// The frame of a job, of frames for the jobs from a number on.
pub(crate) fn find_frame(frames: &[JobFrame], first: u64, job: u64) -> &JobFrame
    requires low { first ≤ job }
    requires within { job - first < length frames.now }
    ensures { (d : JobFrame) → result.now ≡ get_or frames.now (job - first) d }
{
    &frames[(job - first) as usize]
}

// Puts the front of bytes.
fn put_front(bytes: &[u8], out: &mut [u8])
    requires { length out.old ≤ length bytes.now }
    ensures { out.new ≡ take (length out.old) bytes.now }
{
    out.copy_from_slice(&bytes[..out.len()]);
}

// Puts bytes in front of others.
fn put_chunk(chunk: &[u8], out: &mut [u8])
    requires { length chunk.now ≤ length out.old }
    ensures front { take (length chunk.now) out.new ≡ chunk.now }
    ensures len { length out.new ≡ length out.old }
{
    out[..chunk.len()].copy_from_slice(chunk);
}

// Puts the values that a chunk says which stands in front of bytes.
fn put_said(to: &Scale, own: OwnChunk, bytes: &[u8], raw: &mut [u8])
    requires chunk { IsKept to.now own bytes.now }
    requires len { length raw.old ≡ raw_size to.now own.cell }
    ensures { raw.new ≡ said_raw to.now own.cell (take own.len bytes.now) }
{
    let chunk = &bytes[..own.len];
    match to.encoding {
        Encoding::Raw => unreachable!(),
        Encoding::Seg { block } => match decode_cell(chunk, to, own.cell, block, raw) {
            Ok(()) => tell_bytes(raw),
            Err(_) => unreachable!(),
        },
    }
}

/// Puts the front of a frame's values.
pub(crate) fn put_values(to: &Scale, frame: &JobFrame, raw: &mut [u8])
    requires { Fills to.now frame.now.own frame.now.bytes.items (length raw.old) }
    ensures { raw.new ≡ take (length raw.old) (values_in to.now frame.now) }
{
    match frame.own {
        None => put_front(&frame.bytes, raw),
        Some(own) => put_said(to, own, &frame.bytes, raw),
    }
}

/// Puts the chunk of a frame in front of `out`, where it has one, and tells its length.
pub(crate) fn hand_chunk(to: &Scale, frame: &JobFrame, out: &mut [u8]) -> Option<usize>
    requires chunk { IfSome frame.now.own (λ own. IsKept to.now own frame.now.bytes.items) }
    requires room { limit_of to.now.encoding to.now.width to.now.channels to.now.size to.now.chunk
        ≤ length out.old }
    ensures within { IfSome result (λ n. n ≤ length out.new) }
    ensures chunk { IfSome result (λ n. (own : OwnChunk) × (frame.now.own ≡ Some own)
        × (take n out.new ≡ take own.len frame.now.bytes.items)) }
{
    match frame.own {
        None => None,
        Some(own) => {
            put_chunk(&frame.bytes[..own.len], out);
            Some(own.len)
        }
    }
}
