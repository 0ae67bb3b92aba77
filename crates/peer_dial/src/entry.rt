//! An object in memory, and an address.
ghost use Rattle.std.specs.Prelude.{◌<◌, ◌^◌, ◌≡◌, length};
ghost use Rattle.vol_base.specs.Bytes.{AreBytes};

use vol_base::{Name, tell_bytes};

/// The name of an object, and its bytes.
#[derive(Drop)]
pub struct Entry {
    pub name: Name,
    pub bytes: Vec<u8>,

    ghost plain: { AreBytes bytes.items },
    ghost short: { length bytes.items < 2 ^ 64 },
}

/// A port of a host.
#[derive(Drop)]
pub struct Address {
    pub host: String,
    pub port: u16,
}

impl Entry {
    /// An object of these bytes.
    pub fn new(name: Name, bytes: Vec<u8>) -> Entry
        ensures name { result.name ≡ name }
        ensures bytes { result.bytes.items ≡ bytes.items }
    {
        tell_bytes(&bytes);
        let _len = bytes.len();
        Entry { name, bytes }
    }
}
