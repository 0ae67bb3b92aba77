//! The next peer of a listening socket.
ghost use Rattle.std.specs.Prelude.{◌≡◌, ◌⊎◌, ◌↔◌, true, Some};
ghost use Rattle.std.specs.IoError.{error_kind, raw_os_error};

use crate::link::Limits;
use std::io::{self, ErrorKind};
use std::net::{OpenListener, OpenStream};
use std::thread;
use std::time::{Clock, Duration, Instant};

// Linux's numbers of errors that std has no kind for: the system's descriptors are all taken, or the process's, a peer
// broke the protocol, and there is no room for a socket's buffers.
const ENFILE: i32 = 23;

const EMFILE: i32 = 24;

const EPROTO: i32 = 71;

const ENOBUFS: i32 = 105;

// Whether an error says that there is no descriptor or no memory left for a connection, which others may give back.
fn tells_shortage(error: &io::Error) -> bool
    ensures { result ≡ true ↔ (error_kind error.now ≡ ErrorKind.OutOfMemory) ⊎ (raw_os_error error.now ≡ Some ENFILE)
        ⊎ (raw_os_error error.now ≡ Some EMFILE) ⊎ (raw_os_error error.now ≡ Some ENOBUFS) }
{
    error.kind() == ErrorKind::OutOfMemory
        || matches!(error.raw_os_error(), Some(ENFILE | EMFILE | ENOBUFS))
}

// Whether an error says that a signal broke the call off, or that one peer's connection failed before it was taken.
fn is_passed_over(error: &io::Error) -> bool
    ensures { result ≡ true ↔ (error_kind error.now ≡ ErrorKind.Interrupted)
        ⊎ (error_kind error.now ≡ ErrorKind.ConnectionAborted) ⊎ (raw_os_error error.now ≡ Some EPROTO) }
{
    matches!(
        error.kind(),
        ErrorKind::Interrupted | ErrorKind::ConnectionAborted
    ) || error.raw_os_error() == Some(EPROTO)
}

// Sends without delay, and waits so long at most for each send.
fn set_up<S: OpenStream>(stream: &S, send: Duration) -> io::Result<()> {
    stream.set_nodelay(true)?;
    stream.set_write_timeout(Some(send))
}

// The next peer's stream, with a limit for each send. One that takes no limit is as one that its peer broke off.
fn accept_stream<L>(listener: &L, send: Duration) -> io::Result<L::Stream>
where
    L: OpenListener,
    L::Stream: OpenStream,
{
    let (stream, _peer) = listener.accept()?;
    match set_up(&stream, send) {
        Ok(()) => Ok(stream),
        Err(_) => Err(io::Error::from(ErrorKind::ConnectionAborted)),
    }
}

// Waits before the next try, unless the shortage, which is noted where it began, lasts too long. Whether it waited.
fn wait_for_room<C: Clock>(
    clock: &C,
    since: &mut Option<Instant>,
    limits: &Limits,
) -> io::Result<bool> {
    let now = Instant::now(clock)?;
    let begin = *since.get_or_insert(now);
    if now.duration_since(begin) >= limits.shortage {
        return Ok(false);
    }
    thread::sleep(clock, limits.retry);
    Ok(true)
}

/// The next peer's stream, with a limit for each send. A peer that went before it was taken is passed over, and what a
/// signal broke off is tried again. Where there is no descriptor or no memory left, it is tried again and again for some
/// time, since a connection that ends gives them back.
pub(crate) fn next_stream<C, L>(clock: &C, listener: &L, limits: &Limits) -> io::Result<L::Stream>
where
    C: Clock,
    L: OpenListener,
    L::Stream: OpenStream,
{
    let mut since = None;
    for _ in 0..u64::MAX {
        match accept_stream(listener, limits.send) {
            Ok(stream) => return Ok(stream),
            Err(error) if is_passed_over(&error) => since = None,
            Err(error) => {
                if !tells_shortage(&error) || !wait_for_room(clock, &mut since, limits)? {
                    return Err(error);
                }
            }
        }
    }
    Err(io::Error::from(ErrorKind::TimedOut))
}
