//! The stream of a generated list from its definition, slow and plain: each write draws anew from the number.
ghost use Rattle.std.specs.Prelude.{◌≡◌, ◌+◌, ◌-◌, ◌*◌, ◌%◌, ◌<◌, ◌≤◌, ◌^◌, ◌++◌, ℕ, OnOk, IfOk, min, slice_index, pos, ◌+ℤ◌};
ghost use Rattle.byteorder.specs.Endian.{little_bytes};
ghost use Rattle.vol_base.specs.Boxes.{at, size, voxels};
ghost use Rattle.vectors_vol.specs.Draws.{draw, next_state, state_behind};
ghost use Rattle.vectors_vol.specs.Generated.{begin_on, box_at, counting_bytes, generated, nth_write, size_on};
ghost use Rattle.vectors_vol.specs.WriteStreams.{stream_of, write_bytes};

use crate::place::{count_values, head_bytes};
use std::alloc::{AllocError, Global};
use vol_base::Box3;
use vol_spec::Scale;

#[tactic(auto, unfolding(crate::specs::Draws::next_state))]
fn state_after(state: u32, draws: u32) -> u32
    requires state { state < 2 ^ 31 }
    ensures after { result ≡ state_behind state draws }
    ensures fits { result < 2 ^ 31 }
{
    let mut state = u64::from(state);
    for done in 0..draws {
        state = (1_103_515_245 * state + 12_345) % 2_147_483_648;
    }
    state as u32
}

fn nth_draw(state: u32, n: u32, limit: u64) -> u64
    requires state { state < 2 ^ 31 }
    requires n { n < 2 ^ 32 - 1 }
    requires limit { 0 < limit }
    ensures drawn { result ≡ draw state n limit }
    ensures below { result < limit }
{
    u64::from(state_after(state, n + 1) / 256) % limit
}

fn plain_begin(scale: &Scale, state: u32, axis: u32) -> u64
    requires axis { axis < 3 }
    requires state { state < 2 ^ 31 }
    ensures begin { result ≡ begin_on scale.now state axis }
    ensures within { result < slice_index scale.now.size axis }
{
    nth_draw(state, 2 * axis, scale.size[axis as usize])
}

fn plain_size(scale: &Scale, state: u32, axis: u32) -> u64
    requires axis { axis < 3 }
    requires state { state < 2 ^ 31 }
    ensures size { result ≡ size_on scale.now state axis }
    ensures small { result ≤ 64 }
{
    let rest = scale.size[axis as usize] - plain_begin(scale, state, axis);
    1 + nth_draw(state, 2 * axis + 1, rest.min(64))
}

fn plain_place(scale: &Scale, state: u32, axis: u32) -> i64
    requires axis { axis < 3 }
    requires state { state < 2 ^ 31 }
    ensures { result ≡ at scale.now.offset axis +ℤ pos (begin_on scale.now state axis) }
{
    let begin = plain_begin(scale, state, axis);
    scale.offset[axis as usize] + begin as i64
}

fn plain_box(scale: &Scale, number: u32, write: u32) -> Box3
    requires number { number < 2 ^ 31 }
    requires write { write < 4096 }
    ensures drawn { result ≡ box_at scale.now number write }
    ensures small { (axis : ℕ) → axis < 3 → slice_index result.size axis ≤ 64 }
{
    let state = state_after(number, 6 * write);
    Box3 {
        begin: [
            plain_place(scale, state, 0),
            plain_place(scale, state, 1),
            plain_place(scale, state, 2),
        ],
        size: [
            plain_size(scale, state, 0),
            plain_size(scale, state, 1),
            plain_size(scale, state, 2),
        ],
    }
}

#[tactic(auto, using(crate::proofs::PlainSteps::front_bytes))]
fn push_number(bytes: &mut Vec<u8>, width: u32, number: u64) -> Result<(), AllocError>
    requires { width ≤ 8 }
    ensures { OnOk result (bytes.new.items ≡ bytes.old.items ++ little_bytes width number) }
{
    bytes.extend_from_slice(&number.to_le_bytes()[..width as usize])
}

fn push_values(bytes: &mut Vec<u8>, width: u32, first: u64, count: u64) -> Result<(), AllocError>
    requires width { width ≤ 8 }
    requires first { first ≤ 2 ^ 32 }
    requires count { count ≤ 2 ^ 28 }
    ensures { OnOk result (bytes.new.items ≡ bytes.old.items ++ counting_bytes width first count) }
{
    for n in 0..count {
        push_number(bytes, width, (first + n) % 256)?;
    }
    Ok(())
}

fn push_write(bytes: &mut Vec<u8>, scale: &Scale, number: u32, write: u32) -> Result<(), AllocError>
    requires number { number < 2 ^ 31 }
    requires write { write < 4096 }
    ensures { OnOk result (bytes.new.items ≡ bytes.old.items
        ++ write_bytes (nth_write scale.now number write)) }
{
    let part = plain_box(scale, number, write);
    let count = count_values(&part, scale.channels);
    bytes.extend_from_slice(&head_bytes(&part))?;
    push_values(
        bytes,
        scale.width,
        u64::from(number) + 31 * u64::from(write),
        count,
    )
}

/// The stream of so many writes to a scale, from a number.
pub fn plain_stream(
    alloc: Global,
    scale: &Scale,
    number: u32,
    writes: u32,
) -> Result<Vec<u8>, AllocError>
    requires number { number < 2 ^ 31 }
    requires writes { writes ≤ 4096 }
    ensures { IfOk result (λ bytes. bytes.items ≡ stream_of (generated scale.now number writes)) }
{
    let mut bytes = Vec::from_slice(alloc, b"PVW1")?;
    push_number(&mut bytes, 4, u64::from(writes))?;
    for write in 0..writes {
        push_write(&mut bytes, scale, number, write)?;
    }
    Ok(bytes)
}
