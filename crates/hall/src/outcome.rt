//! How connections end, and how serving them does.

/// How a connection ended: whole or by its own link, by its store, or by want of memory.
#[derive(Clone, Copy, Debug, PartialEq, Eq)]
pub enum Outcome {
    Whole,
    StoreCut,
    MemoryCut,
}

/// How serving ended: each connection was served; an accept failed; or there was no memory, for the hall or for some
/// connection.
#[derive(Clone, Copy, Debug, PartialEq, Eq)]
pub enum HallEnd {
    All,
    DoorFault,
    OutOfMemory,
}
