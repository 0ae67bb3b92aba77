//! The first value in which a view differs from the first view.
ghost use Rattle.std.specs.Prelude.{◌≡◌, ◌+◌, ◌*◌, ◌<◌, ◌≤◌, ◌^◌, pos, ◌+ℤ◌, length};
ghost use Rattle.chunk_grid.specs.Axes.{IsSmallOn};
ghost use Rattle.vol_base.specs.Boxes.{at, size};
ghost use Rattle.vol_spec.specs.BoxValues.{channel_of, position_of};
ghost use Rattle.vol_spec.specs.Grid.{Inside};
ghost use Rattle.vol_spec.specs.Raw.{digit, raw_len};
ghost use Rattle.view_judge.specs.Answers.{Compares};

use crate::ViewFault;
use byteorder::{ByteOrder, LittleEndian};
use compare_values::first_difference;
use vol_base::Box3;
use vol_spec::Scale;

// The n-th value.
fn read_value(values: &[u8], width: usize, n: usize) -> u64
    requires some { 1 ≤ width }
    requires wide { width ≤ 8 }
    requires within { width * n + width ≤ length values.now }
    ensures { result ≡ digit values.now width n }
{
    LittleEndian::read_uint(&values[width * n..], width)
}

// A place of a box on an axis, so far from its begin.
fn place_on(part: &Box3, axis: usize, by: u64) -> i64
    requires axis { axis < 3 }
    requires small { IsSmallOn part.now axis }
    requires within { by < size part.now axis }
    ensures { result ≡ at part.now.begin axis +ℤ pos by }
{
    part.begin[axis] + by as i64
}

// The position and the channel of the n-th value of a box.
fn find_place(scale: &Scale, part: &Box3, n: u64) -> ([i64; 3], u32)
    requires inside { Inside scale.now part.now }
    requires channel { channel_of part.now n < 2 ^ 32 }
    ensures position { result.0 ≡ position_of part.now n }
    ensures channel { result.1 ≡ channel_of part.now n }
{
    let [x, y, z] = part.size;
    let row = n / x;
    let plane = row / y;
    let at = [
        place_on(part, 0, n % x),
        place_on(part, 1, row % y),
        place_on(part, 2, plane % z),
    ];
    (at, (plane / z) as u32)
}

/// Compares the values of a box in a view with those of the first view: positions x fastest, then y and z, and then the
/// channels.
pub(crate) fn compare_box(
    number: u32,
    view: &Scale,
    part: &Box3,
    found: &[u8],
    wanted: &[u8],
) -> Result<(), ViewFault>
    requires inside { Inside view.now part.now }
    requires found { length found.now ≡ raw_len part.now view.now.channels view.now.width }
    requires wanted { length wanted.now ≡ raw_len part.now view.now.channels view.now.width }
    ensures { Compares result number part.now view.now.channels view.now.width found.now wanted.now }
{
    let width = view.width as usize;
    let Some(n) = first_difference(found, wanted, width) else {
        return Ok(());
    };
    let (at, channel) = find_place(view, part, n as u64);
    Err(ViewFault::Differs {
        view: number,
        at,
        channel,
        found: read_value(found, width, n),
        wanted: read_value(wanted, width, n),
    })
}
