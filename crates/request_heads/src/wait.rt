//! The next head of a connection.
ghost use Rattle.std.specs.Prelude.{◌≡◌, ◌<◌, ◌≤◌, [], length, take, IfOk, IfSome};
ghost use Rattle.vol_base.specs.Causes.{HasCause};
ghost use Rattle.request_heads.specs.Heads.{pending};
ghost use Rattle.request_heads.specs.Answers.{HasParts, IsNext};

use crate::judge::judge_front;
use crate::kinds::{Front, Next};
use httparse::spans::HeaderSpan;
use vol_base::{Failed, Link};

// Receives some bytes behind those that are there; answers how many there are then, no more only at the end.
fn receive<L: Link>(link: &mut L, buffer: &mut [u8], len: usize) -> Result<usize, Failed>
    requires { len < length buffer.old }
    ensures more { IfOk result (λ n. len ≤ n) }
    ensures within { IfOk result (λ n. n ≤ length buffer.old) }
    ensures pending { IfOk result (λ n. pending buffer.new n (L.left link.new)
        ≡ pending buffer.old len (L.left link.old)) }
    ensures end { IfOk result (λ n. n ≡ len → IfSome (L.left link.old) (λ bytes. bytes ≡ [])) }
    ensures kept { take len buffer.new ≡ take len buffer.old }
    ensures sent { L.sent link.new ≡ L.sent link.old }
    ensures stream { L.stream link.new ≡ L.stream link.old }
    ensures cause { HasCause (L.faults link.old) (L.faults link.new) result }
{
    let n = link.recv(&mut buffer[len..])?;
    Ok(len + n)
}

/// Waits for the next head, in a buffer of 8,192 bytes at whose front some received bytes stand; answers how
/// many stand there then. It takes no memory.
///
/// # Errors
/// `Failed` only where the link failed.
pub fn read_head<L: Link>(
    link: &mut L,
    buffer: &mut [u8],
    len: usize,
    spans: &mut [HeaderSpan],
) -> Result<(Next, usize), Failed>
    requires size { length buffer.old ≡ 8192 }
    requires within { len ≤ 8192 }
    requires room { 2730 ≤ length spans.old }
    ensures within { IfOk result (λ r. r.1 ≤ 8192) }
    ensures next { IfOk result (λ r. IfSome (pending buffer.old len (L.left link.old)) (λ stream.
        IsNext stream r.0)) }
    ensures parts { IfOk result (λ r. HasParts (take r.1 buffer.new) spans.new r.0) }
    ensures pending { IfOk result (λ r. pending buffer.new r.1 (L.left link.new)
        ≡ pending buffer.old len (L.left link.old)) }
    ensures sent { L.sent link.new ≡ L.sent link.old }
    ensures stream { L.stream link.new ≡ L.stream link.old }
    ensures cause { HasCause (L.faults link.old) (L.faults link.new) result }
{
    let mut there = len;
    loop {
        match judge_front(&buffer[..there], spans) {
            Front::Head(parts) => return Ok((Next::Head(parts), there)),
            Front::Never => return Ok((Next::Bad, there)),
            Front::Partial => {}
        }
        if there == buffer.len() {
            return Ok((Next::Bad, there));
        }
        let more = receive(link, buffer, there)?;
        if more == there {
            let last = if there == 0 { Next::End } else { Next::Bad };
            return Ok((last, there));
        }
        there = more;
    }
}
