//! Channels side by side.
ghost use Rattle.std.specs.Prelude.{◌≡◌, ◌+◌, ◌≤◌, length};
ghost use Rattle.vol_spec.specs.Encodings.{raw_size};
ghost use Rattle.cutout.specs.Targets.{picked_of};

use vol_spec::Scale;

/// Some channels of a scale: so many, from a first one on.
#[derive(Clone, Copy)]
pub(crate) struct Channels {
    pub first: u32,
    pub count: u32,
}

/// Of the values of a cell those of some channels.
pub(crate) fn pick<'a>(
    values: &'a [u8],
    scale: &Scale,
    cell: [u64; 3],
    channels: Channels,
) -> &'a [u8]
    requires channels { channels.first + channels.count ≤ scale.now.channels }
    requires values { length values.now ≡ raw_size scale.now cell }
    ensures { result.now ≡ picked_of scale.now cell channels values.now }
{
    let one = values.len() / scale.channels as usize;
    let begin = channels.first as usize * one;
    &values[begin..begin + channels.count as usize * one]
}
