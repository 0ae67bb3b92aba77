//! What is asked of an object, and what a reply's head says.

/// What is asked of an object: its length, or so many of its bytes from a place on.
#[derive(Clone, Copy, Debug, PartialEq, Eq)]
pub enum Wanted {
    Length,
    Part { from: u64, count: u64 },
}

/// How a reply answers: there is no such object; it ends before the place; the object itself, or its length alone;
/// the part of it that was asked for.
#[derive(Clone, Copy, Debug, PartialEq, Eq)]
pub enum Kind {
    Missing,
    Beyond,
    Whole,
    Part,
}

/// What the head of a reply says: how it answers, and how long what it speaks of is.
#[derive(Clone, Copy, Debug, PartialEq, Eq)]
pub struct Promise {
    pub kind: Kind,
    pub len: u64,
}

/// The front of a reply: how many bytes its head has, what it says, and whether the connection ends behind the reply.
#[derive(Clone, Copy, Debug, PartialEq, Eq)]
pub struct Begun {
    pub head: usize,
    pub promise: Promise,
    pub closes: bool,
}
