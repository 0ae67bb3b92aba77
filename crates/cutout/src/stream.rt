//! A box, written layer by layer.
ghost use Rattle.std.specs.Prelude.{◌≡◌, ◌*◌, ◌<◌, ◌≤◌, ◌^◌, length};
ghost use Rattle.vol_spec.specs.Costs.{cost};
ghost use Rattle.vol_spec.specs.Grid.{Inside};
ghost use Rattle.vol_spec.specs.Raw.{raw_len};
ghost use Rattle.cutout.specs.Layers.{layer_room};
ghost use Rattle.cutout.specs.Pouring.{Pours};
ghost use Rattle.cutout.specs.Streaming.{streamed, Streams, StreamsChannel, StreamsPiece};

use crate::cells::CellReader;
use crate::channels::Channels;
use crate::layers::{end_layer, first_layer, layer_at};
use crate::{CutFault, StreamFault};
use chunk_grid::byte_len;
use vol_base::{Box3, Outlet, Source, tell_bytes, write_all};
use vol_spec::StoredScale;

// The same fault of a box that is written.
fn as_streamed(fault: CutFault) -> StreamFault
    ensures { result ≡ streamed fault }
{
    match fault {
        CutFault::OutsideScale => StreamFault::OutsideScale,
        CutFault::StoreFault => StreamFault::StoreFault,
        CutFault::Damaged { cell, fault } => StreamFault::Damaged { cell, fault },
    }
}

// How many bytes one channel of a box has.
fn channel_len(part: &Box3, width: u32) -> usize
    requires { raw_len part.now 1 width ≤ 2 ^ 30 }
    ensures { result ≡ raw_len part.now 1 width }
{
    byte_len(part, 1, width) as usize
}

impl CellReader {
    ghost use Rattle.cutout.specs.Serving.{HasRoom, Serves};

    // Reads a channel of a part into the front of a buffer, and writes it from there.
    fn stream_piece<S: Source, O: Outlet>(
        &mut self,
        store: &mut S,
        origin: &StoredScale,
        part: &Box3,
        channel: u32,
        buffer: &mut [u8],
        out: &mut O,
    ) -> Result<(), StreamFault>
        requires serves { Serves (S.objects store.old) origin.now self.old }
        requires inside { Inside origin.now.scale part.now }
        requires channel { channel < origin.now.scale.channels }
        requires buffer { raw_len part.now 1 origin.now.scale.width ≤ length buffer.old }
        requires limit { length buffer.old ≤ 2 ^ 30 }
        ensures serves { Serves (S.objects store.old) origin.now self.new }
        ensures pours { Pours S.Source O.Outlet store.old store.new out.old out.new result
            (λ m. cost m origin.now.dataset origin.now.scale part.now)
            (λ m gained. StreamsPiece result m origin.now.dataset origin.now.scale part.now channel gained) }
    {
        let one = Channels {
            first: channel,
            count: 1,
        };
        let len = channel_len(part, origin.scale.width);
        let buffer = &mut buffer[..len];
        match self.read_cells(store, origin, part, one, buffer) {
            Ok(()) => {}
            Err(fault) => return Err(as_streamed(fault)),
        }
        tell_bytes(buffer);
        match write_all(out, buffer) {
            Ok(()) => Ok(()),
            Err(_) => Err(StreamFault::OutFault),
        }
    }

    // Writes a channel of a part, layer by layer. The buffer has room for a channel of each layer.
    fn stream_channel<S: Source, O: Outlet>(
        &mut self,
        store: &mut S,
        origin: &StoredScale,
        part: &Box3,
        channel: u32,
        buffer: &mut [u8],
        out: &mut O,
    ) -> Result<(), StreamFault>
        requires serves { Serves (S.objects store.old) origin.now self.old }
        requires inside { Inside origin.now.scale part.now }
        requires channel { channel < origin.now.scale.channels }
        requires buffer { length buffer.old ≡ layer_room origin.now.scale part.now }
        requires limit { length buffer.old ≤ 2 ^ 30 }
        ensures serves { Serves (S.objects store.old) origin.now self.new }
        ensures pours { Pours S.Source O.Outlet store.old store.new out.old out.new result
            (λ m. cost m origin.now.dataset origin.now.scale part.now)
            (λ m gained. StreamsChannel result m origin.now.dataset origin.now.scale part.now channel gained) }
    {
        for number in first_layer(&origin.scale, part)..end_layer(&origin.scale, part) {
            let layer = layer_at(&origin.scale, part, number);
            match self.stream_piece(store, origin, &layer, channel, buffer, out) {
                Ok(()) => {}
                Err(fault) => return Err(fault),
            }
        }
        Ok(())
    }

    /// Writes a part channel by channel, and a channel layer by layer. The buffer has room for a channel of each
    /// layer. Nothing is used of an index that was kept before; the one that is kept goes on from layer to layer.
    pub(crate) fn stream_channels<S: Source, O: Outlet>(
        &mut self,
        store: &mut S,
        origin: &StoredScale,
        part: &Box3,
        buffer: &mut [u8],
        out: &mut O,
    ) -> Result<(), StreamFault>
        requires room { HasRoom origin.now.scale self.old }
        requires inside { Inside origin.now.scale part.now }
        requires buffer { length buffer.old ≡ layer_room origin.now.scale part.now }
        requires limit { length buffer.old ≤ 2 ^ 30 }
        ensures room { HasRoom origin.now.scale self.new }
        ensures pours { Pours S.Source O.Outlet store.old store.new out.old out.new result
            (λ m. origin.now.scale.channels * cost m origin.now.dataset origin.now.scale part.now)
            (λ m gained. Streams result m origin.now.dataset origin.now.scale part.now gained) }
    {
        self.shards.forget();
        for channel in 0..origin.scale.channels {
            match self.stream_channel(store, origin, part, channel, buffer, out) {
                Ok(()) => {}
                Err(fault) => return Err(fault),
            }
        }
        Ok(())
    }
}
