//! Replies at random: well-formed, odd, cut and hostile. Whether one fits, and what it says, is told by how it was made.
ghost use Rattle.std.specs.Prelude.{◌<◌};

use super::{read, store_of};
use std::alloc::{AllocError, Global};
use std::process::Abort;
use std::test::Fail;
use vol_base::Got;

// Numbers by a linear congruence.
#[derive(Drop)]
struct Random {
    state: u64,
}

impl Random {
    // A number below another.
    fn below(&mut self, bound: u64) -> u64
        requires { 0 < bound }
        ensures { result < bound }
    {
        self.state = self
            .state
            .wrapping_mul(6364136223846793005)
            .wrapping_add(1442695040888963407);
        (self.state >> 33) % bound
    }
}

// A text, and whether a reply that fits may have it.
type Choice = (&'static str, bool);

const VERSIONS: &[Choice] = &[
    ("HTTP/1.0", true),
    ("\r\nHTTP/1.1", true),
    ("HTTP/2.0", false),
    ("http/1.1", false),
];

const PHRASES: &[Choice] = &[("", true), (" ", true), (" \u{e9}", true)];

const LENGTHS: &[Choice] = &[
    ("CONTENT-length: 00", true),
    ("Content-Length:", true),
    ("Content-Length: +", false),
    ("Content-Length: 0x", false),
    ("Content-Length : ", false),
    ("Length: ", false),
];

const ENDS: &[Choice] = &[(" \t", true), (",3", false), ("a", false), (" 3", false)];

const UNITS: &[Choice] = &[
    ("bytes 00", true),
    ("Bytes ", false),
    ("bytes  ", false),
    ("items ", false),
];

const FIELDS: &[Choice] = &[
    ("X: y", true),
    ("Connection: close", true),
    ("Accept-Ranges: none", true),
    ("Content-Encoding: Identity", true),
    ("Content-Encoding: gzip", false),
    ("Transfer-Encoding: chunked", false),
    ("transfer-encoding:", false),
    ("Bad name: x", false),
    (" folded", false),
    ("X: \u{1}", false),
];

const LINE_ENDS: &[Choice] = &[("\n", true)];

// What is drawn of a reply, and whether it fits so far.
#[derive(Drop)]
struct Draws {
    random: Random,
    fits: bool,
}

impl Draws {
    // A number below another.
    fn below(&mut self, bound: u64) -> u64
        requires { 0 < bound }
        ensures { result < bound }
    {
        self.random.below(bound)
    }

    fn must(&mut self, is_so: bool) {
        self.fits = self.fits && is_so;
    }

    // One of the odd texts, each once in so many draws, or else the usual one.
    fn choose(&mut self, of: u64, odd: &[Choice], usual: &'static str) -> &'static str
        requires { 0 < of }
    {
        match odd.get(self.below(of) as usize) {
            Some((text, fits)) => {
                self.must(*fits);
                text
            }
            None => usual,
        }
    }

    fn line_end(&mut self) -> &'static str {
        self.choose(4, LINE_ENDS, "\r\n")
    }

    // A number, or once in so many draws one more.
    fn about(&mut self, number: u64) -> u64 {
        if self.below(40) == 0 {
            number.wrapping_add(1)
        } else {
            number
        }
    }
}

// What is asked for: 3 bytes from the third on, and what the reply says of them by its status: of an object, or of none.
const STATUSES: [u64; 8] = [206, 206, 206, 206, 200, 404, 416, 500];

fn draw_length(alloc: Global, draws: &mut Draws, length: u64) -> Result<String, AllocError> {
    let name = draws.choose(50, LENGTHS, "Content-Length: ");
    let tail = draws.choose(50, ENDS, "");
    let end = draws.line_end();
    format!(in alloc; "{name}{length}{tail}{end}")
}

// The part of an object of so many bytes that is asked for.
fn draw_range(
    alloc: Global,
    draws: &mut Draws,
    total: u64,
    length: u64,
) -> Result<String, AllocError> {
    let first = draws.about(2);
    let last = draws.about(total.min(5).wrapping_sub(1));
    let total = draws.about(total);
    let end = last.wrapping_add(1);
    draws.must(first == 2 && 2 <= last && end == total.min(5) && length == end.wrapping_sub(2));
    let unit = draws.choose(40, UNITS, "bytes ");
    let end = draws.line_end();
    format!(in alloc; "Content-Range: {unit}{first}-{last}/{total}{end}")
}

// A reply at random; its status, the length of its body, and where the body is of an object, from which byte on.
#[derive(Drop)]
struct Drawn {
    bytes: Vec<u8>,
    status: u64,
    count: u64,
}

// A length twice, and both the same.
fn add_twice(alloc: Global, bytes: &mut Vec<u8>, length: u64) -> Result<(), AllocError> {
    let field = format!(in alloc; "Content-Length: {length}\r\n")?;
    bytes.extend_from_slice(field.as_bytes())?;
    bytes.extend_from_slice(field.as_bytes())
}

// The length once, or now and then twice or never.
fn add_length(
    alloc: Global,
    bytes: &mut Vec<u8>,
    draws: &mut Draws,
    length: u64,
) -> Result<(), AllocError> {
    let draw = draws.below(40);
    draws.must(1 < draw);
    match draw {
        0 => Ok(()),
        1 => add_twice(alloc, bytes, length),
        _ => bytes.extend_from_slice(draw_length(alloc, draws, length)?.as_bytes()),
    }
}

// Up to two fields that say nothing of the part, and now and then a long one.
fn add_others(bytes: &mut Vec<u8>, draws: &mut Draws) -> Result<(), AllocError> {
    for _ in 0..draws.below(3) {
        let field = draws.choose(60, FIELDS, "X-Y:");
        bytes.extend_from_slice(field.as_bytes())?;
        bytes.extend_from_slice(draws.line_end().as_bytes())?;
    }
    if draws.below(60) == 0 {
        draws.must(false);
        bytes.extend_from_slice(b"X: ")?;
        bytes.resize(9000, b'x')?;
        bytes.extend_from_slice(b"\r\n")?;
    }
    Ok(())
}

fn draw_line(alloc: Global, draws: &mut Draws, status: u64) -> Result<String, AllocError> {
    let version = draws.choose(40, VERSIONS, "HTTP/1.1");
    let phrase = draws.choose(8, PHRASES, " OK");
    let end = draws.line_end();
    format!(in alloc; "{version} {status}{phrase}{end}")
}

fn draw_head(
    alloc: Global,
    draws: &mut Draws,
    status: u64,
    total: u64,
    length: u64,
) -> Result<Vec<u8>, AllocError> {
    let mut bytes = Vec::new(alloc);
    bytes.extend_from_slice(draw_line(alloc, draws, status)?.as_bytes())?;
    add_length(alloc, &mut bytes, draws, length)?;
    if status == 206 {
        bytes.extend_from_slice(draw_range(alloc, draws, total, length)?.as_bytes())?;
    }
    add_others(&mut bytes, draws)?;
    bytes.extend_from_slice(draws.line_end().as_bytes())?;
    Ok(bytes)
}

// So many bytes of the object, from the one on that a reply of this status begins with.
fn add_body(bytes: &mut Vec<u8>, status: u64, count: u64) -> Result<(), AllocError> {
    let from = if status == 206 { 2 } else { 0 };
    for place in 0..count.min(20) {
        bytes.push(b'0' + (from + place).min(9) as u8)?;
    }
    Ok(())
}

// Now and then cuts off the end of a reply that fits.
fn cut(bytes: &mut Vec<u8>, draws: &mut Draws) {
    if draws.fits && draws.below(12) == 0 {
        let len = bytes.len() as u64;
        bytes.truncate(draws.below(len.max(1)) as usize);
        draws.must(false);
    }
}

fn draw(alloc: Global, draws: &mut Draws) -> Result<Drawn, AllocError> {
    draws.fits = true;
    let status = STATUSES[draws.below(8) as usize];
    draws.must(status != 500);
    let total = 3 + draws.below(7);
    let count = if status == 206 {
        total.min(5) - 2
    } else {
        total
    };
    let length = draws.about(count);
    let mut bytes = draw_head(alloc, draws, status, total, length)?;
    let count = draws.about(count);
    draws.must(count == length);
    add_body(&mut bytes, status, count)?;
    cut(&mut bytes, draws);
    Ok(Drawn {
        bytes,
        status,
        count,
    })
}

// What a reply that fits says of 3 bytes from the third on, and the buffer then.
fn say(drawn: &Drawn) -> (Got, &'static [u8]) {
    let count = if drawn.status == 206 {
        drawn.count
    } else {
        drawn.count.saturating_sub(2).min(3)
    };
    if drawn.status == 404 {
        return (Got::Absent, b"...");
    }
    if drawn.status == 416 {
        return (Got::Bytes(0), b"...");
    }
    match count {
        0 => (Got::Bytes(0), b"..."),
        1 => (Got::Bytes(1), b"2.."),
        2 => (Got::Bytes(2), b"23."),
        _ => (Got::Bytes(3), b"234"),
    }
}

// A read over one reply at random: whether it fits.
fn compare(rt: &impl Abort, alloc: Global, draws: &mut Draws) -> Result<bool, Fail> {
    let drawn = draw(alloc, draws)?;
    let mut store = store_of(alloc, &drawn.bytes)?;
    let mut buffer = [b'.'; 3];
    let got = read(&mut store, &mut buffer)?;
    if !draws.fits {
        assert!(rt; got.is_none());
        return Ok(false);
    }
    let (answer, bytes) = say(&drawn);
    assert_eq!(rt; got, Some(answer));
    assert_eq!(rt; buffer.as_slice(), bytes);
    assert_eq!(rt; store.body(), drawn.count);
    Ok(true)
}

// 500 replies at random, of which some 250 fit.
fn compare_many(rt: &impl Abort, alloc: Global, state: u64) -> Result<(), Fail> {
    let mut draws = Draws {
        random: Random { state },
        fits: true,
    };
    let mut fitting = 0u64;
    for _ in 0..500 {
        if compare(rt, alloc, &mut draws)? {
            fitting = fitting.saturating_add(1);
        }
    }
    assert!(rt; 150 < fitting && fitting < 350, "{fitting} replies fit");
    Ok(())
}

#[test]
fn takes_what_fits(rt: HostRuntime) -> Result<(), Fail> {
    compare_many(&rt, rt.alloc(), 1)
}

#[test]
fn takes_what_fits_next(rt: HostRuntime) -> Result<(), Fail> {
    compare_many(&rt, rt.alloc(), 2)
}

#[test]
fn takes_what_fits_then(rt: HostRuntime) -> Result<(), Fail> {
    compare_many(&rt, rt.alloc(), 3)
}

#[test]
fn takes_what_fits_last(rt: HostRuntime) -> Result<(), Fail> {
    compare_many(&rt, rt.alloc(), 4)
}
