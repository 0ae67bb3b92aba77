//! A pool of frames.
ghost use Rattle.std.specs.Prelude.{◌≡◌, ◌↔◌, ◌+◌, ◌<◌, ◌≤◌, ◌++◌, ◌∷◌, [], length, IfOk, IfSome, None};
ghost use Rattle.chunk_pool.specs.Frames.{AreFrames};

use crate::Frame;
use std::alloc::Global;
use std::marker::Model;
use vol_base::OutOfMemory;

/// Frames of one length, some of them lent. Those lent and those held are together the reserved ones.
#[derive(Drop)]
pub struct Pool {
    frames: Vec<Frame>,
    reserved: u32,
    lent: u32,
    len: usize,
}

impl Model for Pool {
    ghost use Rattle.chunk_pool.specs.Frames.{Stock, IsStock};

    ghost Value = { Stock };

    ghost view = { λ p. record { reserved = p.reserved; len = p.len; lent = p.lent; held = p.frames.items } };

    ghost invariant = { λ p. IsStock (record {
      reserved = p.reserved;
      len = p.len;
      lent = p.lent;
      held =
          p.frames.items;
    }) p.frames.cap };
}

// So many frames, in memory for as many.
fn reserve_frames(alloc: Global, count: u32, len: usize) -> Result<Vec<Frame>, OutOfMemory>
    ensures count { IfOk result (λ v. length v.items ≡ count) }
    ensures room { IfOk result (λ v. count ≤ v.cap) }
    ensures frames { IfOk result (λ v. AreFrames len v.items) }
{
    let Ok(mut frames) = Vec::with_capacity(alloc, count as usize) else {
        return Err(OutOfMemory);
    };
    for _ in 0..count {
        let frame = Frame::alone(alloc, len as u64)?;
        match frames.push(frame) {
            Ok(()) => {}
            Err(_) => return Err(OutOfMemory),
        }
    }
    Ok(frames)
}

impl Pool {
    ghost use Rattle.chunk_pool.specs.Frames.{Filled};

    /// So many frames of so many bytes each, none of them lent. Only this call takes memory, and it
    /// fails only where there is none.
    pub fn reserve(alloc: Global, count: u32, bytes: u64) -> Result<Pool, OutOfMemory>
        ensures reserved { IfOk result (λ p. p.reserved ≡ count) }
        ensures len { IfOk result (λ p. p.len ≡ bytes) }
        ensures lent { IfOk result (λ p. p.lent ≡ 0) }
        ensures held { IfOk result (λ p. length p.held ≡ count) }
    {
        let len = bytes as usize;
        let frames = reserve_frames(alloc, count, len)?;
        Ok(Pool {
            frames,
            reserved: count,
            lent: 0,
            len,
        })
    }

    /// Lends a frame that the pool holds; None exactly where all are lent.
    pub fn take(&mut self) -> Option<Frame>
        ensures all { result ≡ None ↔ (self.old.lent ≡ self.old.reserved) }
        ensures long { IfSome result (λ frame. length frame.bytes ≡ self.old.len) }

        // What is left in the pool.
        ensures lent { IfSome result (λ frame. self.new.lent ≡ self.old.lent + 1) }
        ensures held { IfSome result (λ frame. self.old.held ≡ self.new.held ++ frame ∷ []) }
        ensures same { result ≡ None → self.new ≡ self.old }
        ensures reserved { self.new.reserved ≡ self.old.reserved }
        ensures len { self.new.len ≡ self.old.len }
        ensures together { self.new.lent + length self.new.held ≡ self.new.reserved }
    {
        let frame = self.frames.pop()?;
        self.lent += 1;
        Some(frame)
    }

    /// Takes back a frame of the pool's length, where one is lent. It takes no memory.
    pub fn give(&mut self, frame: Frame)
        requires long { length frame.bytes ≡ self.old.len }
        requires lent { length self.old.held < self.old.reserved }
        ensures lent { self.new.lent + 1 ≡ self.old.lent }
        ensures held { self.new.held ≡ self.old.held ++ frame ∷ [] }
        ensures reserved { self.new.reserved ≡ self.old.reserved }
        ensures len { self.new.len ≡ self.old.len }
        ensures together { self.new.lent + length self.new.held ≡ self.new.reserved }
    {
        match self.frames.push(frame) {
            Ok(()) => {}
            Err(_) => unreachable!(),
        }
        self.lent -= 1;
    }
}
