//! A listening socket.
ghost use Rattle.std.specs.Prelude.{◌≡◌, ◌≢◌, None, IfOk};
ghost use Rattle.std.specs.Net.Grammar.{IsIpText, Parses};

use crate::accepts::next_stream;
use crate::counts::count_fault;
use crate::link::{Limits, TcpLink};
use std::env::{Env, FillError};
use std::io::{self, ErrorKind};
use std::marker::Model;
use std::net::{IpAddr, Ipv4Addr, Net, OpenListener, SocketAddr};
use std::time::{Clock, Duration};
use vol_base::{Door, Failed};

// The variable of the environment that names the address.
const ADDRESS: &str = "VOL_TOOL_ADDRESS";

// A socket that listens, and its port.
#[derive(Drop)]
struct Listening<L> {
    listener: L,
    port: u16,
}

/// A socket that listens at the loopback address, or at the IP address that the variable `VOL_TOOL_ADDRESS` of the
/// environment names, as a door, which tells nothing of what its ends had. A text there that is no IP address is a fault
/// of `listen`.
///
/// Its ends have a limit of 10 seconds on each send, and of 10 seconds for a whole head, from the accept or the last send
/// on, however its bytes come; and a shorter one, the pause, for the first byte behind a send, so that a peer that keeps an
/// idle connection doesn't hold up the others. A reply whose peer falls 10 seconds behind one that takes 16 KiB a second is a fault.
/// Behind a reply no head is waited for once an end is older than its age. They send without delay. `close` first ends what is sent;
/// then it drains what still comes, for one second and 64 KiB at most, so that the peer gets all that was sent.
///
/// Where the system has no descriptor or no memory left for the next connection, `accept` tries again every 100
/// milliseconds, and fails after 20 seconds of that in a row: longer than a silent peer is waited for, so that silent peers
/// alone end no server. A connection that fails before it was taken, or takes no limit, is passed over.
#[derive(Drop)]
pub struct TcpDoor<R: Net> {
    rt: R,
    limits: Limits,
    listening: Option<Listening<R::Listener>>,
    accepted: u64,
    faults: u64,
}

impl<R: Net> Model for TcpDoor<R> {
    ghost use Rattle.std.specs.Option.{option_map};
    ghost use Rattle.vol_shell.specs.Tallies.{Doorway};

    ghost Value = { Doorway };

    ghost view = { λ d. record {
      port = option_map (λ l. l.port) d.listening;
      accepted = d.accepted;
      faults =
          d.faults;
    } };
}

impl<R: Net> TcpDoor<R> {
    /// Nothing was bound, no end was given, and nothing failed. The pause is half a second and the age a minute, for ends
    /// that are served one after the other.
    pub fn new(rt: R) -> TcpDoor<R>
        ensures { result ≡ record { port = None; accepted = 0; faults = 0 } }
    {
        TcpDoor::with_pause(rt, Duration::from_millis(500), Duration::from_secs(60))
    }

    /// The same, with a pause and an age of its own.
    pub fn with_pause(rt: R, pause: Duration, age: Duration) -> TcpDoor<R>
        ensures { result ≡ record { port = None; accepted = 0; faults = 0 } }
    {
        TcpDoor::with_limits(
            rt,
            Limits {
                head: Duration::from_secs(10),
                pause,
                send: Duration::from_secs(10),
                reply: Duration::from_secs(10),
                age,
                draining: Duration::from_secs(1),
                retry: Duration::from_millis(100),
                shortage: Duration::from_secs(20),
            },
        )
    }

    /// The same, with limits of its own.
    pub fn with_limits(rt: R, limits: Limits) -> TcpDoor<R>
        ensures { result ≡ record { port = None; accepted = 0; faults = 0 } }
    {
        TcpDoor {
            rt,
            limits,
            listening: None,
            accepted: 0,
            faults: 0,
        }
    }
}

// The address that a text names.
fn read_address(text: &[u8]) -> Result<IpAddr, Failed>
    ensures { Parses IsIpText text.now result }
{
    match IpAddr::parse_ascii(text) {
        Ok(address) => Ok(address),
        Err(_) => Err(Failed),
    }
}

// The address that the environment names, or the loopback address. No address has a text of more than 45 bytes, so a
// longer one is none.
fn find_address<E: Env>(env: &E) -> Result<IpAddr, Failed> {
    let mut text = [0; 64];
    match env.var(ADDRESS, &mut text) {
        Ok(len) => read_address(&text[..len]),
        Err(FillError::NotPresent) => Ok(IpAddr::V4(Ipv4Addr::LOCALHOST)),
        Err(FillError::TooLong) => Err(Failed),
    }
}

// Binds an address, and asks for the port that was bound.
fn bind<N: Net>(net: &N, address: IpAddr, port: u16) -> io::Result<Listening<N::Listener>> {
    let listener = net.bind(SocketAddr::new(address, port))?;
    let port = listener.local_addr()?.port();
    Ok(Listening { listener, port })
}

// Binds the address of the environment. The system says which port that bound; another than the one that was asked for
// is a fault.
fn start<R: Net + Env>(rt: &R, port: u16) -> Result<Listening<R::Listener>, Failed>
    ensures asked { IfOk result (λ listening. port ≢ 0 → listening.port ≡ port) }
{
    let address = find_address(rt)?;
    match bind(rt, address, port) {
        Ok(listening) if port == 0 || listening.port == port => Ok(listening),
        _ => Err(Failed),
    }
}

impl<R: Net + Clock + Env + Copy> Door for TcpDoor<R> {
    ghost use Rattle.vol_base.specs.Causes.{counted, is_count};

    type End = TcpLink<R, R::Stream>;

    ghost bound = { λ d. d.port };

    ghost accepted = { λ d. d.accepted };

    ghost served = { λ _. None };

    ghost faults = { λ d. counted d.faults };

    ghost counts = { λ d. is_count d.faults };

    ghost notes = { λ _. tt };

    fn listen(&mut self, port: u16) -> Result<u16, Failed> {
        match start(&self.rt, port) {
            Ok(listening) => {
                let port = listening.port;
                self.listening = Some(listening);
                Ok(port)
            }
            Err(failed) => {
                count_fault(&mut self.faults);
                Err(failed)
            }
        }
    }

    // A count of ends at its own end gives no more.
    fn accept(&mut self) -> Result<TcpLink<R, R::Stream>, Failed> {
        let next = match &self.listening {
            Some(listening) if self.accepted < u64::MAX => {
                next_stream(&self.rt, &listening.listener, &self.limits)
            }
            _ => Err(io::Error::from(ErrorKind::NotConnected)),
        };
        match next {
            Ok(stream) => {
                self.accepted += 1;
                Ok(TcpLink::new(self.rt, stream, self.limits))
            }
            Err(_) => {
                count_fault(&mut self.faults);
                Err(Failed)
            }
        }
    }

    fn close(&mut self, mut end: TcpLink<R, R::Stream>) {
        end.drain();
    }
}
