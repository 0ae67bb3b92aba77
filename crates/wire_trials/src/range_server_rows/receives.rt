//! How often a link is called: no more than a head needs, and no more behind a reply that closes.

use super::serve;
use range_server::{Ending, ServeFault};
use std::alloc::Global;
use std::process::Abort;
use std::test::Fail;

const CLOSING: &[u8] = b"GET /s/x HTTP/1.1\r\nRange: bytes=2-4\r\nConnection: close\r\n\r\n";

const CLOSING_REPLY: &[u8] =
    b"HTTP/1.1 206 Partial Content\r\nContent-Length: 3\r\nContent-Type: application/octet-stream\r\nAccept-Ranges: bytes\r\nAccess-Control-Allow-Origin: *\r\nContent-Range: bytes 2-4/10\r\nConnection: close\r\n\r\n234";

// Each receive and each send moves five bytes: 12 receives read the head, and 40 sends write the reply.
const RECEIVES: u64 = 12;

const SENDS: u64 = 40;

// Where this call fails, so much of the reply is sent, and serving ends so.
fn check_call(
    rt: &impl Abort,
    alloc: Global,
    call: u64,
    sent: &[u8],
    ended: Result<Ending, ServeFault>,
) -> Result<(), Fail> {
    let (found, served) = serve(alloc, CLOSING, 5, &[call], &[])?;
    assert_eq!(rt; served, ended, "call {call}");
    assert_eq!(rt; found.as_slice(), sent, "call {call}");
    Ok(())
}

// What is sent when a call fails is as much as the calls before it moved; and behind a reply that closes nothing is
// called any more.
#[test]
fn waits_for_no_more_than_a_head(rt: HostRuntime) -> Result<(), Fail> {
    let fault = Err(ServeFault::LinkFault);
    for call in 0..RECEIVES {
        check_call(&rt, rt.alloc(), call, &[], fault)?;
    }
    for call in 0..SENDS {
        let sent = CLOSING_REPLY.get(..5 * call as usize).unwrap_or(&[]);
        check_call(&rt, rt.alloc(), RECEIVES + call, sent, fault)?;
    }
    check_call(
        &rt,
        rt.alloc(),
        RECEIVES + SENDS,
        CLOSING_REPLY,
        Ok(Ending::Whole),
    )
}
