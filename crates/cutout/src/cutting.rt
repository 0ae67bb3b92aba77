//! A box, cut out in one piece.
ghost use Rattle.std.specs.Prelude.{◌≡◌, ◌↔◌, ◌≤◌, ◌^◌, length, IfSome, Err};
ghost use Rattle.vol_spec.specs.Grid.{cells_in, Inside};
ghost use Rattle.vol_spec.specs.Raw.{raw_len};
ghost use Rattle.cutout.specs.Reading.{HasCut};

use crate::CutFault;
use crate::cells::CellReader;
use crate::channels::Channels;
use chunk_grid::inside;
use vol_base::{Box3, Source, tell_bytes};
use vol_spec::StoredScale;

impl CellReader {
    ghost use Rattle.cutout.specs.Serving.{Serves, Walks};

    /// Cuts a box out, in all its channels. The index that is kept goes on from box to box.
    pub(crate) fn cut_box<S: Source>(
        &mut self,
        store: &mut S,
        origin: &StoredScale,
        part: &Box3,
        out: &mut [u8],
    ) -> Result<(), CutFault>
        requires len { length out.old ≡ raw_len part.now origin.now.scale.channels origin.now.scale.width }
        requires limit { Inside origin.now.scale part.now → length out.old ≤ 2 ^ 30 }
        requires serves { Serves (S.objects store.old) origin.now self.old }
        ensures outside { result ≡ Err CutFault.OutsideScale ↔ (Inside origin.now.scale part.now → ⊥) }
        ensures cut { IfSome (S.objects store.old) (λ m.
            HasCut result m origin.now.dataset origin.now.scale part.now out.new) }
        ensures unasked { result ≡ Err CutFault.OutsideScale → store.new ≡ store.old }
        ensures serves { Serves (S.objects store.old) origin.now self.new }
        ensures walks { Walks S.Source origin.now (cells_in origin.now.scale part.now) CutFault.StoreFault
            store.old store.new self.old.shards self.new.shards result }
    {
        if !inside(&origin.scale, part) {
            return Err(CutFault::OutsideScale);
        }
        let all = Channels {
            first: 0,
            count: origin.scale.channels,
        };
        match self.read_cells(store, origin, part, all, out) {
            Ok(()) => {}
            Err(fault) => return Err(fault),
        }
        tell_bytes(out);
        Ok(())
    }
}
