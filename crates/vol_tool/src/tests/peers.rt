//! Streams of requests that peers send, and the replies that they get. They were worked out by hand.
ghost use Rattle.std.specs.Prelude.{◌≡◌, IfOk, None};
ghost use Rattle.vol_base.specs.Peers.{IsFresh};

use crate::tests::words_of;
use crate::top::run;
use memory_rows::{no_feed, outlet_of, store_of};
use std::alloc::Global;
use std::process::Abort;
use std::sync::Wait;
use std::test::Fail;
use std::thread::Threads;
use vol_base::{FreeGate, MemoryDoor, MemoryLink};

// A reply: its status, the length that it tells, its other fields, and its body.
macro_rules! reply {
    ($status:literal, $len:literal, $fields:literal, $body:literal) => {
        concat!(
            "HTTP/1.1 ",
            $status,
            "\r\nContent-Length: ",
            $len,
            "\r\nContent-Type: application/octet-stream",
            "\r\nAccept-Ranges: bytes",
            "\r\nAccess-Control-Allow-Origin: *\r\n",
            $fields,
            "\r\n",
            $body
        )
    };
}

// A request for the bytes 2 to 4 of ten, and the same as the last of its connection.
const PART: &str = "GET /s/x HTTP/1.1\r\nHost: a\r\nRange: bytes=2-4\r\n\r\n";

const LAST_PART: &str =
    "GET /s/x HTTP/1.1\r\nHost: a\r\nRange: bytes=2-4\r\nConnection: Keep-Alive, CLOSE\r\n\r\n";

const PART_REPLY: &str = reply!(
    "206 Partial Content",
    "3",
    "Content-Range: bytes 2-4/10\r\n",
    "234"
);

const LAST_PART_REPLY: &str = reply!(
    "206 Partial Content",
    "3",
    "Content-Range: bytes 2-4/10\r\nConnection: close\r\n",
    "234"
);

const BAD_REPLY: &str = reply!("400 Bad Request", "0", "Connection: close\r\n", "");

const MISSING_REPLY: &str = reply!("404 Not Found", "0", "", "");

const NO_PART_REPLY: &str = reply!(
    "416 Range Not Satisfiable",
    "0",
    "Content-Range: bytes */10\r\n",
    ""
);

// What comes in, in two parts, and the replies to it.
const STREAMS: &[([&str; 2], [&str; 2])] = &[
    (["", ""], ["", ""]),
    ([PART, ""], [PART_REPLY, ""]),
    (["GET /s/x HTTP/1.1\r\n", ""], [BAD_REPLY, ""]),
    (["\0", PART], [BAD_REPLY, ""]),
    ([PART, "\0"], [PART_REPLY, BAD_REPLY]),
    (
        ["GET /../x HTTP/1.1\r\nHost: a\r\n\r\n", PART],
        [MISSING_REPLY, PART_REPLY],
    ),
    ([LAST_PART, PART], [LAST_PART_REPLY, ""]),
];

// A peer's end.
fn link_of(alloc: Global, stream: &str) -> Result<MemoryLink, Fail>
    ensures { IfOk result IsFresh }
{
    let bytes = stream.as_bytes().to_vec(alloc)?;
    match MemoryLink::new(alloc, bytes, 1024, 7, Vec::new(alloc)) {
        Ok(link) => Ok(link),
        Err(_) => Err("memory".into()),
    }
}

// A door where one peer waits.
fn door_of(alloc: Global, stream: &str) -> Result<MemoryDoor, Fail>
    ensures { IfOk result (λ door. door.bound ≡ None) }
{
    let ends = Vec::from_array(alloc, [link_of(alloc, stream)?])?;
    match MemoryDoor::new(alloc, ends, Vec::new(alloc)) {
        Ok(door) => Ok(door),
        Err(_) => Err("memory".into()),
    }
}

// A peer that sends these bytes gets these replies.
fn check_replies<R: Threads + Wait + Abort + Sync>(
    rt: &R,
    alloc: Global,
    stream: &str,
    replies: &str,
) -> Result<(), Fail> {
    let mut store = store_of(alloc, &[("d/s/x", b"0123456789")], &[])?;
    let mut feed = no_feed(alloc);
    let mut out = outlet_of(alloc, 7, &[])?;
    let mut err = outlet_of(alloc, 7, &[])?;
    let mut door = door_of(alloc, stream)?;
    let words = words_of(alloc, "serve d --port=80 --connections=1")?;
    let status = run(
        rt, alloc, &words, &mut store, &mut feed, &mut out, &mut err, &mut door, &FreeGate,
    );
    assert_eq!(rt; status.number(), 0);
    assert!(rt; out.written() == b"listening 80\n".as_slice());
    for end in door.served() {
        assert!(rt; end.sent() == replies.as_bytes());
    }
    assert_eq!(rt; door.served().len(), 1);
    Ok(())
}

#[test]
fn serves_a_peer(rt: HostRuntime) -> Result<(), Fail> {
    let alloc = rt.alloc();
    for ([first, second], [reply, next_reply]) in STREAMS {
        let stream = format!(in alloc; "{first}{second}")?;
        let replies = format!(in alloc; "{reply}{next_reply}")?;
        check_replies(&rt, alloc, &stream, &replies)?;
    }
    let no_head = format!(in alloc; "{:a>8192}{PART}", "")?;
    check_replies(&rt, alloc, &no_head, BAD_REPLY)?;
    let beyond = "GET /s/x HTTP/1.1\r\nHost: a\r\nRange: bytes=";
    let digits = format!(in alloc; "{beyond}{:9>400}-\r\n\r\n", "")?;
    check_replies(&rt, alloc, &digits, NO_PART_REPLY)
}
