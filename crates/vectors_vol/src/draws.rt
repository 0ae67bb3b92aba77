//! Numbers drawn from a state, and boxes made of them.
ghost use Rattle.std.specs.Prelude.{◌≡◌, ◌+◌, ◌-◌, ◌<◌, ◌≤◌, ◌^◌, ℕ, pos, ◌+ℤ◌, min, slice_index};
ghost use Rattle.vol_base.specs.Boxes.{at};
ghost use Rattle.vectors_vol.specs.Draws.{draw, next_state, state_behind};
ghost use Rattle.vectors_vol.specs.Generated.{box_from};

use vol_base::Box3;
use vol_spec::Scale;

// The factor and the summand of the sequence of states.
const FACTOR: u64 = 1_103_515_245;

const SUMMAND: u64 = 12_345;

/// The most voxels that a box has on an axis.
const MOST_SIZE: u64 = 64;

/// The state that the next draw is made from.
#[derive(Drop)]
pub(crate) struct Draws {
    pub state: u32,
    pub ghost fits: { state < 2 ^ 31 },
}

// The coordinate on an axis that is so far from the scale's begin.
fn place_on(scale: &Scale, axis: usize, distance: u64) -> i64
    requires axis { axis < 3 }
    requires distance { distance ≤ 2 ^ 40 }
    ensures { result ≡ at scale.now.offset axis +ℤ pos distance }
{
    scale.offset[axis] + distance as i64
}

// Where a box begins on an axis, from the scale's begin, and its size there.
#[derive(Clone, Copy)]
struct Side {
    begin: u64,
    size: u64,
}

#[tactic(auto, unfolding(crate::specs::Draws::next_state))]
fn step(state: u32) -> u32
    requires { state < 2 ^ 31 }
    ensures next { result ≡ next_state state }
    ensures fits { result < 2 ^ 31 }
{
    ((FACTOR * u64::from(state) + SUMMAND) % (1 << 31)) as u32
}

impl Draws {
    // A number below a limit.
    fn draw_below(&mut self, limit: u64) -> u64
        requires { 0 < limit }
        ensures drawn { result ≡ draw self.old.state 0 limit }
        ensures below { result < limit }
        ensures state { self.new.state ≡ state_behind self.old.state 1 }
    {
        self.state = step(self.state);
        u64::from(self.state >> 8) % limit
    }

    fn draw_side(&mut self, size: u64) -> Side
        requires some { 1 ≤ size }
        ensures begin { result.begin ≡ draw self.old.state 0 size }
        ensures size { result.size ≡ 1 + draw self.old.state 1 (min 64 (size - result.begin)) }
        ensures within { result.begin < size }
        ensures small { result.size ≤ 64 }
        ensures state { self.new.state ≡ state_behind self.old.state 2 }
    {
        let begin = self.draw_below(size);
        let rest = self.draw_below(MOST_SIZE.min(size - begin));
        Side {
            begin,
            size: 1 + rest,
        }
    }

    /// The box of a write.
    pub(crate) fn draw_box(&mut self, scale: &Scale) -> Box3
        ensures drawn { result ≡ box_from scale.now self.old.state }
        ensures state { self.new.state ≡ state_behind self.old.state 6 }
        ensures small { (axis : ℕ) → axis < 3 → slice_index result.size axis ≤ 64 }
    {
        let x = self.draw_side(scale.size[0]);
        let y = self.draw_side(scale.size[1]);
        let z = self.draw_side(scale.size[2]);
        Box3 {
            begin: [
                place_on(scale, 0, x.begin),
                place_on(scale, 1, y.begin),
                place_on(scale, 2, z.begin),
            ],
            size: [x.size, y.size, z.size],
        }
    }
}
