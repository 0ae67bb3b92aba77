//! Bodies of replies.
ghost use Rattle.std.specs.Prelude.{◌≡◌, ◌+◌, ◌-◌, ◌<◌, ◌≤◌, ◌++◌, ◌^◌, ℕ, min, List, true, false, length, take, drop, IfOk, IfSome, IsTrue};
ghost use Rattle.vol_base.specs.Causes.{HasCause};
ghost use Rattle.vol_base.specs.Gains.{Gains};
ghost use Rattle.vol_base.specs.Outside.{part};
ghost use Rattle.remote_store.specs.Bodies.{HasRoom, Passed, Said, Taken, stretch_at, stretch_count};
ghost use Rattle.remote_store.specs.Dials.{OnlyReceives};

use crate::dial::Dial;
use crate::wait::receive;
use crate::wanted::{Kind, Promise};
use vol_base::Failed;

/// Receives bytes behind those that are there, until a buffer is full or the end came; `there` is how many bytes are
/// there then.
pub(crate) fn fill<D: Dial>(
    dial: &mut D,
    buffer: &mut [u8],
    there: &mut usize,
) -> Result<(), Failed>
    requires held { IsTrue (D.holds dial.old) }
    requires room { there.old ≤ length buffer.old }
    ensures more { there.old ≤ there.new }
    ensures within { there.new ≤ length buffer.old }
    ensures kept { take there.old buffer.new ≡ take there.old buffer.old }
    ensures passed { Passed (length buffer.old - there.old) (drop there.old (take there.new buffer.new))
        (D.received dial.old) (D.received dial.new) (D.left dial.old) (D.left dial.new)
        (D.line dial.old) (D.line dial.new) (D.ends dial.old) (D.ends dial.new) result }
    ensures held { D.holds dial.new ≡ D.holds dial.old }
    ensures same { OnlyReceives (D.peer dial.old) (D.peer dial.new) (D.dialled dial.old) (D.dialled dial.new)
        (D.sent dial.old) (D.sent dial.new) }
    ensures cause { HasCause (D.faults dial.old) (D.faults dial.new) result }
{
    while *there < buffer.len() {
        let more = receive(dial, buffer, *there)?;
        if more == *there {
            return Ok(());
        }
        *there = more;
    }
    Ok(())
}

/// Receives `n` bytes by a buffer, or fewer if the end came; `done` is how many came.
pub(crate) fn skip<D: Dial>(
    dial: &mut D,
    scratch: &mut [u8],
    n: u64,
    done: &mut u64,
) -> Result<(), Failed>
    requires held { IsTrue (D.holds dial.old) }
    requires room { 0 < length scratch.old }
    ensures passed { (gained : List ℕ) × (length gained ≡ done.new) × Passed n gained
        (D.received dial.old) (D.received dial.new) (D.left dial.old) (D.left dial.new)
        (D.line dial.old) (D.line dial.new) (D.ends dial.old) (D.ends dial.new) result }
    ensures held { D.holds dial.new ≡ D.holds dial.old }
    ensures same { OnlyReceives (D.peer dial.old) (D.peer dial.new) (D.dialled dial.old) (D.dialled dial.new)
        (D.sent dial.old) (D.sent dial.new) }
    ensures cause { HasCause (D.faults dial.old) (D.faults dial.new) result }
{
    *done = 0;
    while *done < n {
        let piece = (scratch.len() as u64).min(n - *done) as usize;
        let mut got = 0;
        let result = fill(dial, &mut scratch[..piece], &mut got);
        *done += got as u64;
        match result {
            Ok(()) => {}
            Err(failed) => return Err(failed),
        }
        if got < piece {
            return Ok(());
        }
    }
    Ok(())
}

// Passes over bytes, and receives those behind them; answers whether all came. `got` is how many did.
fn skip_fill<D: Dial>(
    dial: &mut D,
    scratch: &mut [u8],
    before: u64,
    out: &mut [u8],
    got: &mut u64,
) -> Result<bool, Failed>
    requires held { IsTrue (D.holds dial.old) }
    requires room { 0 < length scratch.old }
    requires fits { before + length out.old < 2 ^ 64 }
    ensures passed { (gained : List ℕ) × Taken (before + length out.old) before got.new gained out.old out.new result
        × Passed (before + length out.old) gained
        (D.received dial.old) (D.received dial.new) (D.left dial.old) (D.left dial.new)
        (D.line dial.old) (D.line dial.new) (D.ends dial.old) (D.ends dial.new) result }
    ensures held { D.holds dial.new ≡ D.holds dial.old }
    ensures same { OnlyReceives (D.peer dial.old) (D.peer dial.new) (D.dialled dial.old) (D.dialled dial.new)
        (D.sent dial.old) (D.sent dial.new) }
    ensures cause { HasCause (D.faults dial.old) (D.faults dial.new) result }
{
    match skip(dial, scratch, before, got) {
        Ok(()) => {}
        Err(failed) => return Err(failed),
    }
    if *got < before {
        return Ok(false);
    }
    let mut there = 0;
    let result = fill(dial, out, &mut there);
    *got += there as u64;
    match result {
        Ok(()) => Ok(there == out.len()),
        Err(failed) => Err(failed),
    }
}

// Copies bytes from a place on, as far as they and a buffer reach; answers how many.
fn copy_front(front: &[u8], at: u64, out: &mut [u8]) -> usize
    ensures count { result ≡ min (length front.now - at) (length out.old) }
    ensures bytes { take result out.new ≡ part front.now at result }
{
    if front.len() as u64 <= at {
        return 0;
    }
    let from = at as usize;
    let n = (front.len() - from).min(out.len());
    out[..n].copy_from_slice(&front[from..from + n]);
    n
}

/// Receives the rest of a body of `len` bytes, of which the front came, and puts those that stand from `at` on into a buffer;
/// answers whether it came whole. `body` is how many bytes of it came.
pub(crate) fn take_stretch<D: Dial>(
    dial: &mut D,
    front: &[u8],
    scratch: &mut [u8],
    len: u64,
    at: u64,
    out: &mut [u8],
    body: &mut u64,
) -> Result<bool, Failed>
    requires held { IsTrue (D.holds dial.old) }
    requires room { 0 < length scratch.old }
    requires front { length front.now ≤ len }
    requires fits { at + length out.old ≤ len }
    ensures passed { (gained : List ℕ) × Taken len at body.new (front.now ++ gained) out.old out.new result
        × Passed (len - length front.now) gained
        (D.received dial.old) (D.received dial.new) (D.left dial.old) (D.left dial.new)
        (D.line dial.old) (D.line dial.new) (D.ends dial.old) (D.ends dial.new) result }
    ensures held { D.holds dial.new ≡ D.holds dial.old }
    ensures same { OnlyReceives (D.peer dial.old) (D.peer dial.new) (D.dialled dial.old) (D.dialled dial.new)
        (D.sent dial.old) (D.sent dial.new) }
    ensures cause { HasCause (D.faults dial.old) (D.faults dial.new) result }
{
    let there = front.len() as u64;
    let copied = copy_front(front, at, out);
    let mut got = 0;
    let first = skip_fill(
        dial,
        scratch,
        at.saturating_sub(there),
        &mut out[copied..],
        &mut got,
    );
    *body = there + got;
    match first {
        Ok(true) => {}
        Ok(false) => return Ok(false),
        Err(failed) => return Err(failed),
    }
    let mut more = 0;
    let last = skip(dial, scratch, len - *body, &mut more);
    *body += more;
    match last {
        Ok(()) => Ok(*body == len),
        Err(failed) => Err(failed),
    }
}

// Where in a body those bytes stand that are asked for, and how many.
fn find_stretch(kind: Kind, len: u64, from: u64, count: usize) -> (u64, usize)
    requires { HasRoom kind len count }
    ensures at { result.0 ≡ stretch_at kind len from }
    ensures count { result.1 ≡ stretch_count kind len from count }
{
    match kind {
        Kind::Part => (0, len as usize),
        Kind::Whole => {
            let at = from.min(len);
            (at, (len - at).min(count as u64) as usize)
        }
        Kind::Missing => (0, 0),
        Kind::Beyond => (0, 0),
    }
}

/// Receives the rest of a body, of which the front came, and puts what it says into a buffer; answers whether it came whole.
/// `body` is how many bytes of it came.
pub(crate) fn end_part<D: Dial>(
    dial: &mut D,
    front: &[u8],
    scratch: &mut [u8],
    promise: Promise,
    from: u64,
    out: &mut [u8],
    body: &mut u64,
) -> Result<bool, Failed>
    requires held { IsTrue (D.holds dial.old) }
    requires room { 0 < length scratch.old }
    requires front { length front.now ≤ promise.len }
    requires fits { HasRoom promise.kind promise.len (length out.old) }
    ensures passed { (gained : List ℕ) × Said promise.kind promise.len from body.new (front.now ++ gained) out.old out.new result
        × Passed (promise.len - length front.now) gained
        (D.received dial.old) (D.received dial.new) (D.left dial.old) (D.left dial.new)
        (D.line dial.old) (D.line dial.new) (D.ends dial.old) (D.ends dial.new) result }
    ensures held { D.holds dial.new ≡ D.holds dial.old }
    ensures same { OnlyReceives (D.peer dial.old) (D.peer dial.new) (D.dialled dial.old) (D.dialled dial.new)
        (D.sent dial.old) (D.sent dial.new) }
    ensures cause { HasCause (D.faults dial.old) (D.faults dial.new) result }
{
    let (at, count) = find_stretch(promise.kind, promise.len, from, out.len());
    take_stretch(
        dial,
        front,
        scratch,
        promise.len,
        at,
        &mut out[..count],
        body,
    )
}
