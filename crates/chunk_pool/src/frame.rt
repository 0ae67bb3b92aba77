//! A frame.
ghost use Rattle.std.specs.Prelude.{◌≡◌, ◌≤◌, length, take, vec_capacity, IfOk};
ghost use Rattle.std.specs.Borrow.{sem};
ghost use Rattle.chunk_pool.specs.Lending.{LendsRoom};
ghost use Rattle.chunk_pool.specs.Zeros.{filled_up};

use std::alloc::Global;
use std::marker::Model;
use vol_base::OutOfMemory;

/// A fixed number of bytes, of which those at the front are in use. Memory for all of them is taken at first, and none of it is
/// touched before it is put or lent. It stands alone, or in a pool.
#[derive(Drop)]
pub struct Frame {
    bytes: Vec<u8>,
    len: usize,
    used: usize,
}

impl Model for Frame {
    ghost use Rattle.std.specs.Prelude.{◌≤◌, length, vec_capacity};
    ghost use Rattle.chunk_pool.specs.Frames.{Filled};
    ghost use Rattle.chunk_pool.specs.Zeros.{filled_up};

    ghost Value = { Filled };

    ghost view = { λ f. record { bytes = filled_up f.len f.bytes.items; used = f.used } };

    ghost invariant = { λ f. (f.used ≤ length f.bytes.items) × (length f.bytes.items ≤ f.len) × (f.len ≤ vec_capacity f.bytes) };
}

// Puts zeros behind bytes, up to so many in all, in memory that is there.
fn fill_up(bytes: &mut Vec<u8>, len: usize)
    requires within { length bytes.old.items ≤ len }
    requires room { len ≤ vec_capacity bytes.old }
    ensures items { bytes.new.items ≡ filled_up len bytes.old.items }
    ensures len { length bytes.new.items ≡ len }
    ensures room { len ≤ vec_capacity bytes.new }
{
    match bytes.resize(len, 0) {
        Ok(()) => {}
        Err(_) => unreachable!(),
    }
}

// The same where there are fewer bytes than these.
fn reach(bytes: &mut Vec<u8>, len: usize, least: usize)
    requires within { length bytes.old.items ≤ len }
    requires room { len ≤ vec_capacity bytes.old }
    requires least { least ≤ len }
    ensures items { filled_up len bytes.new.items ≡ filled_up len bytes.old.items }
    ensures least { least ≤ length bytes.new.items }
    ensures within { length bytes.new.items ≤ len }
    ensures room { len ≤ vec_capacity bytes.new }
{
    if bytes.len() < least {
        fill_up(bytes, len);
    }
}

// Puts bytes in place of others, in memory that is there.
fn replace(bytes: &mut Vec<u8>, by: &[u8])
    requires room { length by.now ≤ vec_capacity bytes.old }
    ensures items { bytes.new.items ≡ by.now }
    ensures room { vec_capacity bytes.old ≤ vec_capacity bytes.new }
{
    bytes.clear();
    match bytes.extend_from_slice(by) {
        Ok(()) => {}
        Err(_) => unreachable!(),
    }
}

impl Frame {
    /// A frame of so many bytes, none of them in use. It fails only where there is no memory.
    pub fn alone(alloc: Global, len: u64) -> Result<Frame, OutOfMemory>
        ensures len { IfOk result (λ f. length f.bytes ≡ len) }
        ensures used { IfOk result (λ f. f.used ≡ 0) }
    {
        match Vec::with_capacity(alloc, len as usize) {
            Ok(bytes) => Ok(Frame {
                bytes,
                len: len as usize,
                used: 0,
            }),
            Err(_) => Err(OutOfMemory),
        }
    }

    /// The bytes in use.
    pub fn used(&self) -> &[u8]
        ensures { result.now ≡ take self.now.used self.now.bytes }
    {
        &self.bytes[..self.used]
    }

    /// All its bytes, to be written. How many are in use stays the same.
    pub fn room(&mut self) -> &mut [u8]
        ensures* writes_back { sem 𝓛 (LendsRoom self.entry result) }
        ensures value { result.now ≡ self.old.bytes }
    {
        fill_up(&mut self.bytes, self.len);
        &mut self.bytes
    }

    /// Says how many bytes at the front are in use. The bytes stay the same.
    pub fn set_used(&mut self, n: usize)
        requires { n ≤ length self.old.bytes }
        ensures { self.new ≡ record self.old { used = n } }
    {
        reach(&mut self.bytes, self.len, n);
        self.used = n;
    }

    /// Puts bytes in front, which are then those in use; those behind them may be any. It takes no memory.
    pub fn put(&mut self, bytes: &[u8])
        requires { length bytes.now ≤ length self.old.bytes }
        ensures used { self.new.used ≡ length bytes.now }
        ensures bytes { take self.new.used self.new.bytes ≡ bytes.now }
        ensures len { length self.new.bytes ≡ length self.old.bytes }
    {
        replace(&mut self.bytes, bytes);
        self.used = bytes.len();
    }
}
