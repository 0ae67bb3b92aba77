//! An object in memory.
ghost use Rattle.vol_base.specs.Bytes.{AreBytes};

use crate::Name;

/// An object of a store in memory.
#[derive(Drop)]
pub struct Object {
    pub name: Name,
    pub bytes: Vec<u8>,
    pub ghost plain: { AreBytes bytes.items },
}

/// One that is being written.
#[derive(Drop)]
pub struct Unfinished {
    pub name: Name,
    pub bytes: Vec<u8>,
}
