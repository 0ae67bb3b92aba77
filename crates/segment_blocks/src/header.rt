//! The header of a block.
ghost use Rattle.std.specs.Prelude.{◌≡◌, ◌+◌, ◌*◌, ◌/◌, ◌%◌, ◌<◌, ◌≤◌, ◌^◌, [], ◌∷◌, length, drop, not, nat_lt, ◌==◌, ◌&&◌};
ghost use Rattle.vol_spec.specs.SegChunks.{word, words, start, bits, table_at, values_at};
ghost use Rattle.vol_spec.specs.SegFaults.{is_allowed, when};
ghost use Rattle.vol_spec.specs.BoxValues.{first_some};
ghost use Rattle.std.specs.Result.{result_err};
ghost use Rattle.vol_spec.specs.SegBlocks.{packed_words};

use crate::word::read_word;
use vol_base::ChunkFault;

fn test_bits(bits: u32) -> bool
    ensures { result ≡ is_allowed bits }
{
    matches!(bits, 0 | 1 | 2 | 4 | 8 | 16 | 32)
}

/// How many words so many indices take.
pub(crate) fn count_words(bits: u32, n: usize) -> usize
    requires bits { bits ≤ 32 }
    requires n { n < 2 ^ 32 }
    ensures { result ≡ packed_words bits n }
{
    (bits as usize * n + 31) / 32
}

/// The bytes from a word on.
pub(crate) fn find_part(bytes: &[u8], at: usize) -> &[u8]
    requires { at < 2 ^ 60 }
    ensures { result.now ≡ drop (4 * at) bytes.now }
{
    if 4 * at <= bytes.len() {
        &bytes[4 * at..]
    } else {
        &bytes[..0]
    }
}

/// What a block's header says.
#[derive(Clone, Copy)]
pub(crate) struct Header {
    pub bits: u32,
    pub table: usize,
    pub values: usize,
}

/// Reads the header of block k of channel c, two words behind the channel's start.
pub(crate) fn read_header(bytes: &[u8], c: usize, k: usize) -> Header
    requires channel { 4 * c + 4 ≤ length bytes.now }
    requires block { 4 * (start bytes.now c + 2 * k + 2) ≤ length bytes.now }
    ensures bits { result.bits ≡ bits bytes.now c k }
    ensures table { result.table ≡ start bytes.now c + table_at bytes.now c k }
    ensures values { result.values ≡ start bytes.now c + values_at bytes.now c k }
    ensures small { (result.table < 2 ^ 33) × (result.values < 2 ^ 33) × (result.bits < 256) }
{
    let start = read_word(bytes, c) as usize;
    let head = read_word(bytes, start + 2 * k);
    let values = read_word(bytes, start + 2 * k + 1) as usize;
    Header {
        bits: head / (1 << 24),
        table: start + (head % (1 << 24)) as usize,
        values: start + values,
    }
}

/// The first fault of a header, for a block of n voxels in a chunk of so many words.
pub(crate) fn judge_header(
    h: &Header,
    n: usize,
    words: usize,
    c: u32,
    k: usize,
) -> Result<(), ChunkFault>
    requires n { n < 2 ^ 32 }
    requires values { h.now.values < 2 ^ 33 }
    ensures { result_err result ≡ first_some (when (not (is_allowed h.now.bits))
        (ChunkFault.SegBits c k h.now.bits) ∷ when (not (h.now.bits == 0) && nat_lt words
        (h.now.values + packed_words h.now.bits n)) (ChunkFault.SegValues c k) ∷ []) }
{
    if !test_bits(h.bits) {
        return Err(ChunkFault::SegBits {
            c,
            b: k as u64,
            bits: h.bits,
        });
    }
    if h.bits != 0 && words < h.values + count_words(h.bits, n) {
        return Err(ChunkFault::SegValues { c, b: k as u64 });
    }
    Ok(())
}
