//! Faults of serving.

/// Why a connection wasn't served to its end.
#[derive(Clone, Copy, Debug, PartialEq, Eq)]
pub enum ServeFault {
    LinkFault,
    StoreFault,
    OutOfMemory,
}

/// Why the ends of a door weren't all served.
#[derive(Clone, Copy, Debug, PartialEq, Eq)]
pub enum DoorRefusal {
    DoorFault,
    OutOfMemory,
}
