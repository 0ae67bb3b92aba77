//! A stream of the system. Each method is one call of std, and adds nothing.
ghost use Rattle.std.specs.Prelude.{◌≡◌};

use crate::pipe::{PipeIn, PipeOut};
use std::io::{self, Read, Write};

/// A stream of the system. It tells nothing of what passes: no contract of the system's calls does.
#[derive(Drop)]
pub struct HostPipe<S> {
    stream: S,
}

impl<S> HostPipe<S> {
    pub fn new(stream: S) -> HostPipe<S> {
        HostPipe { stream }
    }
}

impl<S: Read> PipeIn for HostPipe<S> {
    ghost use Rattle.std.specs.Prelude.{None};

    ghost coming = { λ _. None };

    fn read(&mut self, out: &mut [u8]) -> io::Result<usize> {
        self.stream.read(out)
    }
}

impl<S: Write> PipeOut for HostPipe<S> {
    ghost use Rattle.std.specs.Prelude.{None};

    ghost went = { λ _. None };

    fn write(&mut self, piece: &[u8]) -> io::Result<usize> {
        self.stream.write(piece)
    }
}
