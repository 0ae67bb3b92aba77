//! What a file in memory holds.
ghost use Rattle.std.specs.Prelude.{◌≡◌};
ghost use Rattle.vol_base.specs.Bytes.{AreBytes};

use vol_base::tell_bytes;

/// Bytes that a file holds.
#[derive(Drop)]
pub struct Content {
    pub bytes: Vec<u8>,
    pub ghost plain: { AreBytes bytes.items },
}

impl Content {
    pub fn new(bytes: Vec<u8>) -> Content
        ensures { result.bytes ≡ bytes }
    {
        tell_bytes(&bytes);
        Content { bytes }
    }
}
