//! Where a generator is in its stream.
ghost use Rattle.std.specs.Prelude.{◌≡◌, ◌+◌, ◌-◌, ◌*◌, ◌<◌, ◌≤◌, ◌^◌, ◌++◌, ◌↔◌, ℕ, [], IsTrue, length, take, drop, min, slice_index};
ghost use Rattle.byteorder.specs.Endian.{little_bytes};
ghost use Rattle.vol_base.specs.Boxes.{voxels};
ghost use Rattle.vol_base.specs.Outside.{Gives};
ghost use Rattle.write_plan.specs.Stream.{magic};
ghost use Rattle.vectors_vol.specs.Draws.{state_behind};
ghost use Rattle.vectors_vol.specs.Generated.{generated};
ghost use Rattle.vectors_vol.specs.WriteStreams.{head_of, stream_of};

use crate::draws::Draws;
use crate::values::fill_front;
use byteorder::{ByteOrder, LittleEndian};
use vol_base::Box3;
use vol_spec::Scale;

/// How many writes were begun, the state behind their draws, and of the last one its head, the first of
/// its values, how many they are, and what was given.
#[derive(Drop)]
pub(crate) struct Place {
    pub scale: Scale,
    pub number: u32,
    pub writes: u32,
    pub begun: u32,
    pub draws: Draws,
    pub head: [u8; 48],
    pub head_at: usize,
    pub first: u64,
    pub count: u64,
    pub at: u64,
    pub ghost number_ok: { number < 2 ^ 31 },
    pub ghost writes_ok: { writes ≤ 4096 },
    pub ghost begun_ok: { begun ≤ writes },
    pub ghost state_ok: { draws.state ≡ state_behind number (6 * begun) },
    pub ghost head_ok: { head_at ≤ 48 },
    pub ghost first_ok: { first ≤ 2 ^ 32 },
    pub ghost count_ok: { count ≤ 2 ^ 28 },
    pub ghost at_ok: { at ≤ scale.width * count },
}

// The mark and the count of a stream, at the end of a head.
fn mark_bytes(writes: u32) -> [u8; 48]
    ensures { drop 40 result ≡ magic ++ little_bytes 4 writes }
{
    let mut head = [0; 48];
    head[40..44].copy_from_slice(b"PVW1");
    LittleEndian::write_u32(&mut head[44..], writes);
    head
}

/// The head of a write to a box.
#[tactic(auto, unfolding(crate::specs::WriteStreams::head_of))]
pub(crate) fn head_bytes(part: &Box3) -> [u8; 48]
    ensures { result ≡ head_of part.now }
{
    let mut head = [0; 48];
    let numbers = [
        part.begin[0].cast_unsigned(),
        part.begin[1].cast_unsigned(),
        part.begin[2].cast_unsigned(),
        part.size[0],
        part.size[1],
        part.size[2],
    ];
    LittleEndian::write_u64_into(&numbers, &mut head);
    head
}

/// How many values a box has.
#[tactic(auto, using(crate::proofs::SizeSteps::few_values))]
pub(crate) fn count_values(part: &Box3, channels: u32) -> u64
    requires small { (axis : ℕ) → axis < 3 → slice_index part.now.size axis ≤ 64 }
    requires channels { channels ≤ 1024 }
    ensures count { result ≡ voxels part.now * channels }
    ensures small { result ≤ 2 ^ 28 }
{
    part.size[0] * part.size[1] * part.size[2] * u64::from(channels)
}

// Puts the front of some bytes in front of a piece, as far as there is room.
fn give_front(left: &[u8], out: &mut [u8]) -> usize
    ensures count { result ≡ min (length left.now) (length out.old) }
    ensures bytes { take result out.new ≡ take result left.now }
{
    let n = left.len().min(out.len());
    out[..n].copy_from_slice(&left[..n]);
    n
}

impl Place {
    ghost use Rattle.vectors_vol.specs.Places.{IsGiven, left_of};

    /// The begin of the stream of a generated list.
    pub(crate) fn new(scale: &Scale, number: u32, writes: u32) -> Place
        requires number { number < 2 ^ 31 }
        requires writes { writes ≤ 4096 }
        ensures { left_of result ≡ stream_of (generated scale.now number writes) }
    {
        Place {
            scale: scale.duplicate(),
            number,
            writes,
            begun: 0,
            draws: Draws { state: number },
            head: mark_bytes(writes),
            head_at: 40,
            first: 0,
            count: 0,
            at: 0,
        }
    }

    fn values_len(&self) -> u64
        ensures value { result ≡ self.now.scale.width * self.now.count }
        ensures small { result ≤ 2 ^ 31 }
    {
        u64::from(self.scale.width) * self.count
    }

    // Whether the write that was begun last is given.
    fn is_given(&self) -> bool
        ensures { IsTrue result ↔ IsGiven self.now }
    {
        self.head_at == 48 && self.at == self.values_len()
    }

    // Begins the next write.
    fn draw_next(&mut self)
        requires given { IsGiven self.old }
        requires more { self.old.begun < self.old.writes }
        ensures same { left_of self.new ≡ left_of self.old }
        ensures head { self.new.head_at ≡ 0 }
    {
        let part = self.draws.draw_box(&self.scale);
        self.head = head_bytes(&part);
        self.head_at = 0;
        self.first = u64::from(self.number) + 31 * u64::from(self.begun);
        self.count = count_values(&part, self.scale.channels);
        self.at = 0;
        self.begun += 1;
    }

    // Begins the next write where the one before is given and there is one.
    fn prepare(&mut self)
        ensures same { left_of self.new ≡ left_of self.old }
        ensures some { IsGiven self.new → left_of self.new ≡ [] }
    {
        if self.is_given() && self.begun < self.writes {
            self.draw_next();
        }
    }

    fn give_head(&mut self, out: &mut [u8]) -> usize
        requires some { self.old.head_at < 48 }
        requires room { 0 < length out.old }
        ensures within { result ≤ length out.old }
        ensures gives { Gives result out.new (left_of self.old) }
        ensures left { left_of self.new ≡ drop result (left_of self.old) }
    {
        let n = give_front(&self.head[self.head_at..], out);
        self.head_at += n;
        n
    }

    fn give_values(&mut self, out: &mut [u8]) -> usize
        requires head { self.old.head_at ≡ 48 }
        requires some { IsGiven self.old → left_of self.old ≡ [] }
        requires room { 0 < length out.old }
        ensures within { result ≤ length out.old }
        ensures gives { Gives result out.new (left_of self.old) }
        ensures left { left_of self.new ≡ drop result (left_of self.old) }
    {
        let n = (self.values_len() - self.at).min(out.len() as u64);
        fill_front(
            out,
            n as usize,
            u64::from(self.scale.width),
            self.first,
            self.at,
        );
        self.at += n;
        n as usize
    }

    /// Gives some bytes of what is left, of a head or of the values of one write.
    pub(crate) fn give(&mut self, out: &mut [u8]) -> usize
        requires room { 0 < length out.old }
        ensures within { result ≤ length out.old }
        ensures gives { Gives result out.new (left_of self.old) }
        ensures left { left_of self.new ≡ drop result (left_of self.old) }
    {
        self.prepare();
        if self.head_at < 48 {
            self.give_head(out)
        } else {
            self.give_values(out)
        }
    }
}
