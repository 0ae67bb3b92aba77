//! What a request is answered.
use vol_base::Name;

/// A reply: its status, the object at 200 and 206, how many bytes follow and from which byte on, the length of
/// the object at 200, 206 and 416, whether the connection ends behind it, and whether its bytes follow.
#[derive(Debug, Drop)]
pub struct Reply {
    pub status: u16,
    pub name: Option<Name>,
    pub from: u64,
    pub count: u64,
    pub total: u64,
    pub close: bool,
    pub body: bool,
}

/// Whether a reply was sent whole, or in its place the one that says that the store failed.
#[derive(Clone, Copy, Debug, PartialEq, Eq)]
pub(crate) enum Sent {
    Whole,
    Broken,
}

/// How a connection ended that was served to its end.
#[derive(Clone, Copy, Debug, PartialEq, Eq)]
pub enum Ending {
    /// With the last reply to its stream.
    Whole,
    /// With the reply that says that the store failed, in place of another.
    Failed,
}
