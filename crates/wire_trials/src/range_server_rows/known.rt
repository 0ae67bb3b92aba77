//! Streams whose replies are known, in pieces of every size, in every cut into two, and byte by byte with each call failing in turn.

use super::cuts::CutLink;
use super::{Ended, link_of, serve_link};
use memory_rows::{name_of, put, store_of};
use range_server::{Ending, ServeFault, serve_to_end};
use std::alloc::{AllocError, Global};
use std::process::Abort;
use std::test::Fail;
use vol_base::MemoryLink;

// A reply: its status, the length that it tells, its other fields, and its body.
macro_rules! reply {
    ($status:literal, $len:literal, $fields:literal, $body:literal) => {
        concat!(
            "HTTP/1.1 ",
            $status,
            "\r\nContent-Length: ",
            $len,
            "\r\nContent-Type: application/octet-stream",
            "\r\nAccept-Ranges: bytes",
            "\r\nAccess-Control-Allow-Origin: *\r\n",
            $fields,
            "\r\n",
            $body
        )
    };
}

// A request for the bytes 2 to 4 of ten.
const PART: &str = "GET /s/x HTTP/1.1\r\nHost: a\r\nRange: bytes=2-4\r\n\r\n";

const PART_REPLY: &str = reply!(
    "206 Partial Content",
    "3",
    "Content-Range: bytes 2-4/10\r\n",
    "234"
);

const LAST_PART_REPLY: &str = reply!(
    "206 Partial Content",
    "3",
    "Content-Range: bytes 2-4/10\r\nConnection: close\r\n",
    "234"
);

const HEAD_REPLY: &str = reply!("200 OK", "10", "", "");

const LAST_WHOLE_REPLY: &str = reply!("200 OK", "10", "Connection: close\r\n", "0123456789");

const BAD_REPLY: &str = reply!("400 Bad Request", "0", "Connection: close\r\n", "");

const MISSING_REPLY: &str = reply!("404 Not Found", "0", "", "");

const METHOD_REPLY: &str = reply!("405 Method Not Allowed", "0", "Allow: GET, HEAD\r\n", "");

const NO_PART_REPLY: &str = reply!(
    "416 Range Not Satisfiable",
    "0",
    "Content-Range: bytes */10\r\n",
    ""
);

const FAILED_REPLY: &str = reply!(
    "500 Internal Server Error",
    "0",
    "Connection: close\r\n",
    ""
);

// A stream, and how many bytes of it come at a time, by one number after the other.
#[derive(Clone, Copy)]
struct Peer<'a> {
    stream: &'a [u8],
    sizes: &'a [usize],
}

// The numbers of the calls that fail, of the link and of the store.
#[derive(Clone, Copy)]
struct Faults<'a> {
    link: &'a [u64],
    store: &'a [u64],
}

const NO_FAULTS: Faults = Faults {
    link: &[],
    store: &[],
};

// What is sent to a peer, and how serving ends.
fn serve(alloc: Global, peer: &Peer<'_>, faults: &Faults<'_>) -> Result<(Vec<u8>, Ended), Fail> {
    let link = link_of(alloc, peer.stream, 4096, faults.link)?;
    let mut link = CutLink::new(link, Vec::from_slice(alloc, peer.sizes)?);
    let served = serve_link(alloc, &mut link, faults.store)?;
    Ok((Vec::from_slice(alloc, link.sent())?, served))
}

// A stream that comes in these sizes has these replies, where no call fails.
fn comes_in(
    rt: &impl Abort,
    alloc: Global,
    stream: &[u8],
    sizes: &[usize],
    wanted: &[u8],
) -> Result<(), Fail> {
    let (sent, served) = serve(alloc, &Peer { stream, sizes }, &NO_FAULTS)?;
    assert_eq!(rt; served, Ok(Ending::Whole));
    assert_eq!(rt; sent.as_slice(), wanted);
    Ok(())
}

// A call of the link fails: a front of the replies was sent. Answers whether there was such a call.
fn link_stops(
    rt: &impl Abort,
    alloc: Global,
    peer: &Peer<'_>,
    call: u64,
    wanted: &[u8],
) -> Result<bool, Fail> {
    let faults = Faults {
        link: &[call],
        store: &[],
    };
    let (sent, served) = serve(alloc, peer, &faults)?;
    assert!(rt; wanted.starts_with(&sent));
    if served == Ok(Ending::Whole) {
        assert_eq!(rt; sent.as_slice(), wanted);
        return Ok(false);
    }
    assert_eq!(rt; served, Err(ServeFault::LinkFault));
    Ok(true)
}

// A call of the store fails: whole first replies were sent, and then the 500. Answers whether there was such a call.
fn store_stops(
    rt: &impl Abort,
    alloc: Global,
    peer: &Peer<'_>,
    call: u64,
    wanted: &[u8],
) -> Result<bool, Fail> {
    let faults = Faults {
        link: &[],
        store: &[call],
    };
    let (sent, served) = serve(alloc, peer, &faults)?;
    if sent.as_slice() == wanted {
        assert_eq!(rt; served, Ok(Ending::Whole));
        return Ok(false);
    }
    assert_eq!(rt; served, Ok(Ending::Failed));
    let front = sent
        .strip_suffix(FAILED_REPLY.as_bytes())
        .ok_or("no reply of status 500")?;
    assert!(rt; wanted.starts_with(front));
    Ok(true)
}

// Each call of the link fails in turn, and then each of the store.
fn calls_fail(rt: &impl Abort, alloc: Global, peer: &Peer<'_>, wanted: &[u8]) -> Result<(), Fail> {
    for call in 0..10_000u64 {
        if !link_stops(rt, alloc, peer, call, wanted)? {
            break;
        }
    }
    for call in 0..10_000u64 {
        if !store_stops(rt, alloc, peer, call, wanted)? {
            break;
        }
    }
    Ok(())
}

// So it has where it comes so, and calls that fail cut them short.
fn breaks_in(
    rt: &impl Abort,
    alloc: Global,
    stream: &[u8],
    sizes: &[usize],
    wanted: &[u8],
) -> Result<(), Fail> {
    comes_in(rt, alloc, stream, sizes, wanted)?;
    calls_fail(rt, alloc, &Peer { stream, sizes }, wanted)
}

// A stream has these replies in every cut into two pieces.
fn answers_cuts(rt: &impl Abort, alloc: Global, stream: &[u8], wanted: &[u8]) -> Result<(), Fail> {
    for cut in 1..stream.len() {
        comes_in(rt, alloc, stream, &[cut, usize::MAX], wanted)?;
    }
    Ok(())
}

// So it has at once and byte by byte, where each call fails in turn too, and in pieces of every other size.
fn answers_pieces(
    rt: &impl Abort,
    alloc: Global,
    stream: &[u8],
    wanted: &[u8],
) -> Result<(), Fail> {
    breaks_in(rt, alloc, stream, &[], wanted)?;
    breaks_in(rt, alloc, stream, &[1], wanted)?;
    for size in 2..stream.len() {
        comes_in(rt, alloc, stream, &[size], wanted)?;
    }
    Ok(())
}

const CLOSING: &str =
    "GET /s/x HTTP/1.1\r\nHost: a\r\nRange: bytes=2-4\r\nConnection: Keep-Alive, CLOSE\r\n\r\n";

// Two parts of a stream, and the replies to it in two parts.
type Known = ([&'static str; 2], [&'static str; 2]);

fn check_known(rt: &impl Abort, alloc: Global, rows: &[Known]) -> Result<(), Fail> {
    for ([first, second], [reply, next_reply]) in rows {
        let stream = format!(in alloc; "{first}{second}")?;
        let replies = format!(in alloc; "{reply}{next_reply}")?;
        answers_cuts(rt, alloc, stream.as_bytes(), replies.as_bytes())?;
        answers_pieces(rt, alloc, stream.as_bytes(), replies.as_bytes())?;
    }
    Ok(())
}

const SINGLE: &[Known] = &[
    (["", ""], ["", ""]),
    ([PART, ""], [PART_REPLY, ""]),
    (
        ["HEAD /s/x HTTP/1.1\r\nHost: a\r\n\r\n", ""],
        [HEAD_REPLY, ""],
    ),
    (
        ["GET /s/y HTTP/1.1\r\nHost: a\r\n\r\n", ""],
        [MISSING_REPLY, ""],
    ),
    (
        ["GET /s/x HTTP/1.1\r\nRange: bytes=10-\r\n\r\n", ""],
        [NO_PART_REPLY, ""],
    ),
    (
        ["GET /s/x HTTP/1.0\r\nHost: a\r\n\r\n", ""],
        [LAST_WHOLE_REPLY, ""],
    ),
];

#[test]
fn answers_a_request(rt: HostRuntime) -> Result<(), Fail> {
    check_known(&rt, rt.alloc(), SINGLE)
}

const PIPED: &[Known] = &[
    ([PART, PART], [PART_REPLY, PART_REPLY]),
    ([CLOSING, PART], [LAST_PART_REPLY, ""]),
];

#[test]
fn answers_piped_requests(rt: HostRuntime) -> Result<(), Fail> {
    check_known(&rt, rt.alloc(), PIPED)
}

const OLD_OR_ABOVE: &[Known] = &[
    (
        ["GET /s/x HTTP/1.0\r\nHost: a\r\n\r\n", PART],
        [LAST_WHOLE_REPLY, ""],
    ),
    (
        ["GET /../x HTTP/1.1\r\nHost: a\r\n\r\n", PART],
        [MISSING_REPLY, PART_REPLY],
    ),
];

#[test]
fn answers_an_old_version_and_a_folder_above(rt: HostRuntime) -> Result<(), Fail> {
    check_known(&rt, rt.alloc(), OLD_OR_ABOVE)
}

const POSTED: &[Known] = &[
    (
        ["POST /s/x HTTP/1.1\r\nHost: a\r\n\r\n", ""],
        [METHOD_REPLY, ""],
    ),
    (
        [
            "POST /s/x HTTP/1.1\r\nHost: a\r\nContent-Length: 5\r\n\r\n",
            "12345",
        ],
        [BAD_REPLY, ""],
    ),
];

#[test]
fn answers_another_method(rt: HostRuntime) -> Result<(), Fail> {
    check_known(&rt, rt.alloc(), POSTED)
}

const BAD: &[Known] = &[
    (["GET /s/x HTTP/1.1\r\n", ""], [BAD_REPLY, ""]),
    (["GET /s/x HTTP/1.1\r\nHost", ""], [BAD_REPLY, ""]),
    (["\0", ""], [BAD_REPLY, ""]),
    (["\0", PART], [BAD_REPLY, ""]),
    ([PART, "\0"], [PART_REPLY, BAD_REPLY]),
];

#[test]
fn answers_what_is_no_head(rt: HostRuntime) -> Result<(), Fail> {
    check_known(&rt, rt.alloc(), BAD)
}

// A range from a number of 400 digits on.
fn long_number(alloc: Global) -> Result<String, AllocError> {
    let front = "GET /s/x HTTP/1.1\r\nHost: a\r\nRange: bytes=";
    format!(in alloc; "{front}{:9>400}-\r\n\r\n", "")
}

#[test]
fn answers_400_digits_in_two_pieces(rt: HostRuntime) -> Result<(), Fail> {
    let stream = long_number(rt.alloc())?;
    answers_cuts(&rt, rt.alloc(), stream.as_bytes(), NO_PART_REPLY.as_bytes())
}

#[test]
fn answers_400_digits_in_pieces(rt: HostRuntime) -> Result<(), Fail> {
    let stream = long_number(rt.alloc())?;
    answers_pieces(&rt, rt.alloc(), stream.as_bytes(), NO_PART_REPLY.as_bytes())
}

// 8,192 bytes that are no head, and a request behind them: byte by byte, in halves, where each call fails in turn too, and in every
// 64th cut and the last 200, since the bytes are all the same one.
#[test]
fn answers_8192_bytes_that_are_no_head(rt: HostRuntime) -> Result<(), Fail> {
    let alloc = rt.alloc();
    let stream = format!(in alloc; "{:a>8192}{PART}", "")?;
    let stream = stream.as_bytes();
    let wanted = BAD_REPLY.as_bytes();
    breaks_in(&rt, alloc, stream, &[4096, usize::MAX], wanted)?;
    comes_in(&rt, alloc, stream, &[1], wanted)?;
    for cut in 1..stream.len() {
        if cut % 64 == 0 || stream.len() - cut <= 200 {
            comes_in(&rt, alloc, stream, &[cut, usize::MAX], wanted)?;
        }
    }
    Ok(())
}

// An object that is longer than what is sent at once.
const LONG: usize = 150_000;

const LONG_HEAD: &str = reply!("200 OK", "150000", "", "");

// What is sent of a long object, which is asked for byte by byte, where a call of the store fails, and how serving ends.
fn serve_long(alloc: Global, call: u64) -> Result<(Vec<u8>, Ended), Fail> {
    let mut store = store_of(alloc, &[], &[call])?;
    let long = Vec::from_elem(alloc, b'l', LONG)?;
    put(alloc, &mut store, "d/s/long", &long)?;
    let stream = Vec::from_slice(alloc, b"GET /s/long HTTP/1.1\r\n\r\n")?;
    let link = MemoryLink::new(alloc, stream, 1 << 20, 1 << 20, Vec::new(alloc))?;
    let mut link = CutLink::new(link, Vec::from_slice(alloc, &[1])?);
    let ended = serve_to_end(alloc, &mut link, &mut store, &name_of("d")?, &mut None).ended;
    Ok((Vec::from_slice(alloc, link.sent())?, ended))
}

// Where a call of the store fails amid the body, a whole head was sent, and a front of the body.
fn check_break(rt: &impl Abort, alloc: Global, call: u64) -> Result<(), Fail> {
    let (sent, ended) = serve_long(alloc, call)?;
    assert_eq!(rt; ended, Err(ServeFault::StoreFault));
    let body = sent
        .strip_prefix(LONG_HEAD.as_bytes())
        .ok_or("no whole head")?;
    assert!(rt; body.len() < LONG && body.iter().all(|byte| *byte == b'l'));
    Ok(())
}

#[test]
fn breaks_off_amid_a_body(rt: HostRuntime) -> Result<(), Fail> {
    let alloc = rt.alloc();
    let mut wanted = Vec::from_slice(alloc, LONG_HEAD.as_bytes())?;
    wanted.resize(wanted.len().saturating_add(LONG), b'l')?;
    let (sent, ended) = serve_long(alloc, 99)?;
    assert_eq!(rt; ended, Ok(Ending::Whole));
    assert!(rt; sent == wanted);
    check_break(&rt, alloc, 2)?;
    check_break(&rt, alloc, 3)
}
