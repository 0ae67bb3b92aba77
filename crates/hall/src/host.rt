//! The host's connections, and an exit that only drops them.
ghost use Rattle.std.specs.Prelude.{None};

use crate::outside::{Exit, Parting};
use std::io::{Read, Write};
use std::net::OpenStream;
use std::time::Clock;
use vol_base::Link;
use vol_shell::TcpLink;

impl<C: Clock, S: Read + Write + OpenStream> Parting for TcpLink<C, S> {
    fn part(&mut self) {
        self.drain();
    }
}

/// An exit that drops what it is given, and tells nothing of it.
#[derive(Drop)]
pub struct PlainExit;

impl<E: Link + Drop> Exit<E> for PlainExit {
    ghost served = { λ _. None };

    fn close(&mut self, _number: u64, _end: E) {}
}
