//! Reducing jobs.
ghost use Rattle.std.specs.Prelude.{◌≡◌, ◌≤◌, length, take, vec_capacity, IfSome};
ghost use Rattle.vol_base.specs.Calls.{ReadsFrom};
ghost use Rattle.vol_spec.specs.Encodings.{raw_size};
ghost use Rattle.vol_spec.specs.Grid.{IsCell};
ghost use Rattle.vol_spec.specs.Raw.{raw_len};
ghost use Rattle.cutout.specs.Kept.{KeepsIndex};
ghost use Rattle.copier.specs.Held.{CutsBox, Holds, IsFilled};
ghost use Rattle.reduce_laws.specs.Reduced.{IsNext, source_box as source_of};
ghost use Rattle.reducer.specs.Reading.{HasRoom, IsReducedOf};

use crate::sources::source_box;
use chunk_grid::{byte_len, cell_box};
use copier::{cut_box, fill_up, values_len};
use cutout::KeepingReader;
use reduce_boxes::reduce_box;
use reduce_laws::Method;
use vol_base::Source;
use vol_spec::Scale;
use write_plan::PrepareFault;

// Makes a buffer that has the room so many bytes long.
fn fit_buffer(buffer: &mut Vec<u8>, len: usize)
    requires { len ≤ vec_capacity buffer.old }
    ensures len { length buffer.new.items ≡ len }
    ensures room { vec_capacity buffer.old ≤ vec_capacity buffer.new }
{
    let fitted = buffer.resize(len, 0);
    prove!(fitted.is_ok());
}

/// Cuts the source box of a cell of the target out, into a buffer that has room for it.
pub(crate) fn cut_source<S: Source>(
    reader: &mut KeepingReader,
    store: &mut S,
    from: &Scale,
    to: &Scale,
    cell: [u64; 3],
    buffer: &mut Vec<u8>,
) -> Result<(), PrepareFault>
    requires source { reader.old.opened.scale ≡ from.now }
    requires keeps { KeepsIndex (S.objects store.old) reader.old }
    requires next { IsNext from.now to.now }
    requires cell { IsCell to.now cell }
    requires room { HasRoom from.now to.now buffer.old }
    ensures cut { IfSome (S.objects store.old) (λ m. CutsBox result m reader.old.opened.dataset from.now
        (source_of from.now to.now cell) buffer.new.items) }
    ensures len { length buffer.new.items
        ≡ raw_len (source_of from.now to.now cell) from.now.channels from.now.width }
    ensures room { HasRoom from.now to.now buffer.new }
    ensures keeps { KeepsIndex (S.objects store.old) reader.new }
    ensures same { reader.new.opened ≡ reader.old.opened }
    ensures reads { ReadsFrom S.Source PrepareFault.StoreFault store.old store.new result }
{
    let part = source_box(from, to, cell);
    fit_buffer(buffer, byte_len(&part, from.channels, from.width) as usize);
    cut_box(reader, store, &part, buffer)
}

// Reduces the values of the source box of a cell into those of the cell.
fn reduce_values(
    method: Method,
    from: &Scale,
    to: &Scale,
    cell: [u64; 3],
    raw: &[u8],
    out: &mut [u8],
)
    requires next { IsNext from.now to.now }
    requires cell { IsCell to.now cell }
    requires raw { length raw.now ≡ raw_len (source_of from.now to.now cell) from.now.channels from.now.width }
    requires out { length out.old ≡ raw_size to.now cell }
    ensures { IsReducedOf method from.now to.now cell raw.now out.new }
{
    let part = source_box(from, to, cell);
    let own = cell_box(to, cell);
    reduce_box(method, raw, &part, out, &own, to.channels, to.width);
}

// Reduces the values of the source box of a cell into the front of a frame.
fn reduce_front(
    method: Method,
    from: &Scale,
    to: &Scale,
    cell: [u64; 3],
    raw: &[u8],
    frame: &mut [u8],
)
    requires next { IsNext from.now to.now }
    requires cell { IsCell to.now cell }
    requires raw { length raw.now ≡ raw_len (source_of from.now to.now cell) from.now.channels from.now.width }
    requires len { raw_size to.now cell ≤ length frame.old }
    ensures reduced { IsReducedOf method from.now to.now cell raw.now (take (raw_size to.now cell) frame.new) }
    ensures len { length frame.new ≡ length frame.old }
{
    let len = values_len(to, cell);
    reduce_values(method, from, to, cell, raw, &mut frame[..len]);
}

/// Fills a frame up, and reduces the values of the source box of a cell into its front.
pub(crate) fn reduce_source(
    method: Method,
    from: &Scale,
    to: &Scale,
    cell: [u64; 3],
    raw: &[u8],
    frame: &mut Vec<u8>,
)
    requires next { IsNext from.now to.now }
    requires cell { IsCell to.now cell }
    requires raw { length raw.now ≡ raw_len (source_of from.now to.now cell) from.now.channels from.now.width }
    requires holds { Holds to.now frame.old }
    ensures reduced { IsReducedOf method from.now to.now cell raw.now
        (take (raw_size to.now cell) frame.new.items) }
    ensures filled { IsFilled to.now frame.new.items }
    ensures holds { Holds to.now frame.new }
{
    fill_up(to, frame);
    reduce_front(method, from, to, cell, raw, frame);
}
