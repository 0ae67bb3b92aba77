//! The common part of two boxes.
ghost use Rattle.std.specs.Prelude.{◌≡◌, ◌<◌, ◌-◌, ◌^◌, ◌↔◌, ◌⊎◌, ◌+ℤ◌, ◌≤ℤ◌, ◌<ℤ◌, pos, ℤ};
ghost use Rattle.vol_base.specs.Boxes as Boxes;
ghost use Rattle.voxel_raw.specs.Common.{IsOn, IsCommon};

use vol_base::Box3;

/// A begin and a size on one axis.
#[derive(Clone, Copy)]
struct Span {
    begin: i64,
    size: u64,
}

// One past the last place of a span.
fn find_end(span: Span) -> i128
    ensures { result ≡ (span.begin +ℤ pos span.size) }
{
    span.begin as i128 + span.size as i128
}

// How many places there are from one on and before another.
fn count_between(low: i64, high: i128) -> u64
    requires { high ≤ℤ (low +ℤ pos (2 ^ 64 - 1)) }
    ensures { ((high ≤ℤ low) × (result ≡ 0)) ⊎ ((low <ℤ high) × ((low +ℤ pos result) ≡ high)) }
{
    if (low as i128) < high {
        (high - low as i128) as u64
    } else {
        0
    }
}

// What both spans have, perhaps nothing.
fn meet_spans(a: Span, b: Span) -> Span
    ensures { (x : ℤ) → IsOn result.begin result.size x ↔ (IsOn a.begin a.size x × IsOn b.begin b.size x) }
{
    let begin = a.begin.max(b.begin);
    let end = find_end(a).min(find_end(b));
    Span {
        begin,
        size: count_between(begin, end),
    }
}

fn span_on(b: &Box3, axis: usize) -> Span
    requires { axis < 3 }
    ensures begin { result.begin ≡ Boxes.at b.now.begin axis }
    ensures size { result.size ≡ Boxes.size b.now axis }
{
    Span {
        begin: b.begin[axis],
        size: b.size[axis],
    }
}

/// The positions that both boxes have.
pub fn common_part(a: &Box3, b: &Box3) -> Box3
    ensures { IsCommon a.now b.now result }
{
    let x = meet_spans(span_on(a, 0), span_on(b, 0));
    let y = meet_spans(span_on(a, 1), span_on(b, 1));
    let z = meet_spans(span_on(a, 2), span_on(b, 2));
    Box3 {
        begin: [x.begin, y.begin, z.begin],
        size: [x.size, y.size, z.size],
    }
}
