//! The reader of a scale.
ghost use Rattle.std.specs.Prelude.{◌≡◌, ◌↔◌, ◌+◌, ◌*◌, ◌≤◌, ◌^◌, length, IfOk, IfSome, Err};
ghost use Rattle.vol_base.specs.Causes.{HasCauseOf};
ghost use Rattle.vol_spec.specs.Costs.{cost};
ghost use Rattle.vol_spec.specs.Grid.{Inside, IsCell};
ghost use Rattle.vol_spec.specs.Raw.{raw_len};
ghost use Rattle.vol_base.specs.Calls.{ReadsFrom};
ghost use Rattle.cutout.specs.Opened.{values_room};
ghost use Rattle.cutout.specs.Reading.{HasCut};
ghost use Rattle.cutout.specs.Searching.{Searches};
ghost use Rattle.cutout.specs.Streaming.{Leaves, Streams};

use crate::cells::CellReader;
use crate::keeping::KeepingReader;
use crate::layers::layer_room;
use crate::{CutFault, Found, StreamFault};
use chunk_grid::inside;
use chunk_pool::Frame;
use std::alloc::Global;
use std::marker::Model;
use vol_base::{Box3, Name, OutOfMemory, Outlet, Source};
use vol_spec::{Encoding, Scale, StoredScale};

/// Reads a scale of a data set. The memory that it needs is taken when it is opened: room for a chunk and a
/// byte more, for the values of a chunk where chunks are segmented, and for 1,024 rows of an index. `stream`
/// alone takes more, the buffer for a layer.
#[derive(Drop)]
pub struct Reader {
    origin: StoredScale,
    cells: CellReader,
}

impl Model for Reader {
    ghost use Rattle.cutout.specs.Opened.{Opened};
    ghost use Rattle.cutout.specs.Serving.{HasRoom};

    ghost Value = { Opened };

    ghost view = { λ r. record { dataset = r.origin.dataset; scale = r.origin.scale } };

    ghost invariant = { λ r. HasRoom r.origin.scale r.cells };
}

/// How many bytes of values are decoded at once: none where chunks have their values as they are.
pub(crate) fn values_limit(scale: &Scale) -> u64
    ensures { result ≡ values_room scale.now }
{
    match scale.encoding {
        Encoding::Raw => 0,
        Encoding::Seg { .. } => scale.raw_limit(),
    }
}

impl Reader {
    /// A reader of a scale. It takes the memory that all calls share; where there is none, it is refused.
    pub fn open(alloc: Global, dataset: &Name, scale: &Scale) -> Result<Reader, OutOfMemory>
        requires dataset { length dataset.now ≤ 200 }
        ensures dataset { IfOk result (λ reader. reader.dataset ≡ dataset.now) }
        ensures scale { IfOk result (λ reader. reader.scale ≡ scale.now) }
    {
        let cells = CellReader::reserve(alloc, scale)?;
        let origin = StoredScale::of(dataset, scale);
        Ok(Reader { origin, cells })
    }

    /// The same reader, which from now on keeps the index that it opened last from call to call.
    pub fn keeping(self) -> KeepingReader
        ensures { result.opened ≡ self }
    {
        KeepingReader {
            origin: self.origin,
            cells: self.cells,
            speller: None,
        }
    }

    /// Cuts a box out: the bytes of its values, x fastest, then y, z and the channel; 0 where a chunk is
    /// absent. The box is refused where it isn't inside the scale, and damaged where a cell that meets it
    /// has a fault, which is the first one's, x fastest. After a refusal `out` holds anything.
    pub fn cutout<S: Source>(
        &mut self,
        store: &mut S,
        part: &Box3,
        out: &mut [u8],
    ) -> Result<(), CutFault>
        requires len { length out.old ≡ raw_len part.now self.old.scale.channels self.old.scale.width }
        requires limit { Inside self.old.scale part.now → length out.old ≤ 2 ^ 30 }
        ensures outside { result ≡ Err CutFault.OutsideScale ↔ (Inside self.old.scale part.now → ⊥) }
        ensures cut { IfSome (S.objects store.old) (λ m.
            HasCut result m self.old.dataset self.old.scale part.now out.new) }
        ensures same { self.new ≡ self.old }
        ensures unasked { result ≡ Err CutFault.OutsideScale → store.new ≡ store.old }

        // It asks for no more than the entries, the indexes and the chunks of the cells.
        ensures asked { IfSome (S.objects store.old) (λ m.
            S.asked store.new ≤ S.asked store.old + cost m self.old.dataset self.old.scale part.now) }
        ensures reads { ReadsFrom S.Source CutFault.StoreFault store.old store.new result }
    {
        self.cells.shards.forget();
        self.cells.cut_box(store, &self.origin, part, out)
    }

    /// Writes a box: the same bytes as `cutout`, channel by channel, and within a channel by layers of cells
    /// along z. The memory for one channel of one layer is taken before the first read; where there is none,
    /// nothing was asked for or written. Where the box is damaged, what was written is channel 0 below the
    /// layer of the first cell that has a fault; after other refusals it is a front of the whole.
    pub fn stream<S: Source, O: Outlet>(
        &mut self,
        alloc: Global,
        store: &mut S,
        part: &Box3,
        out: &mut O,
    ) -> Result<(), StreamFault>
        requires { Inside self.old.scale part.now →
            raw_len part.now self.old.scale.channels self.old.scale.width ≤ 2 ^ 30 }
        ensures outside { result ≡ Err StreamFault.OutsideScale ↔ (Inside self.old.scale part.now → ⊥) }
        ensures streams { Leaves (S.objects store.old) (O.written out.old) (O.written out.new)
            (λ m gained. Streams result m self.old.dataset self.old.scale part.now gained) }
        ensures same { self.new ≡ self.old }

        // Outside the scale and for want of memory all is as before.
        ensures unasked { result ≡ Err StreamFault.OutsideScale → (store.new ≡ store.old) ×
            (out.new ≡ out.old) }
        ensures memory { result ≡ Err StreamFault.OutOfMemory → (store.new ≡ store.old) ×
            (out.new ≡ out.old) }

        // It asks for no more than the entries, the indexes and the chunks of the cells, once for each channel.
        ensures asked { IfSome (S.objects store.old) (λ m. S.asked store.new ≤ S.asked store.old
            + self.old.scale.channels * cost m self.old.dataset self.old.scale part.now) }
        ensures reads { ReadsFrom S.Source StreamFault.StoreFault store.old store.new result }
        ensures out_cause { HasCauseOf StreamFault.OutFault (O.faults out.old) (O.faults out.new) result }
    {
        if !inside(&self.origin.scale, part) {
            return Err(StreamFault::OutsideScale);
        }
        let mut buffer = match Frame::alone(alloc, layer_room(&self.origin.scale, part)) {
            Ok(buffer) => buffer,
            Err(OutOfMemory) => return Err(StreamFault::OutOfMemory),
        };
        self.cells
            .stream_channels(store, &self.origin, part, buffer.room(), out)
    }

    /// Finds the chunk of a cell without reading it: in its own object, of which it is the whole, or in a
    /// shard, where a fault of the entry, of the index or of the chunk's place is told.
    pub fn locate<S: Source>(&mut self, store: &mut S, cell: [u64; 3]) -> Result<Found, CutFault>
        requires { IsCell self.old.scale cell }
        ensures searches { Searches S.Source self.old.dataset self.old.scale cell store.old store.new result }
        ensures same { self.new ≡ self.old }
    {
        self.cells.shards.forget();
        self.cells.locate(store, &self.origin, cell)
    }
}
