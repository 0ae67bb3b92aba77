//! The address of a peer that was dialled.

use std::net::SocketAddr;

/// A port of a host by a name of at most 255 bytes, and the address that its name had.
#[derive(Clone, Copy)]
pub struct Known {
    name: [u8; 256],
    len: u8,
    port: u16,
    address: SocketAddr,
}

impl Known {
    /// None where the name is longer.
    pub fn new(host: &str, port: u16, address: SocketAddr) -> Option<Known> {
        if host.len() > 255 {
            return None;
        }
        let mut name = [0; 256];
        name[..host.len()].copy_from_slice(host.as_bytes());
        Some(Known {
            name,
            len: host.len() as u8,
            port,
            address,
        })
    }

    // Whether it is that port of that host.
    fn is_of(&self, host: &str, port: u16) -> bool {
        self.port == port && &self.name[..usize::from(self.len)] == host.as_bytes()
    }

    /// The address of that port of that host, if it is known.
    pub fn find(&self, host: &str, port: u16) -> Option<SocketAddr> {
        if self.is_of(host, port) {
            Some(self.address)
        } else {
            None
        }
    }
}
