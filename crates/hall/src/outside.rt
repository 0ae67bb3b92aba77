//! Where peers come in, and where their ends go out.
ghost use Rattle.std.specs.Prelude.{◌≡◌, ◌≢◌, ◌+◌, ℕ, List, [], Option, None, Some, IfOk, OnOk, OnErr, IsSome, option_map};
ghost use Rattle.vol_base.specs.Causes.{HasCause, IsCount};
ghost use Rattle.hall.specs.Halls.{Closes, Numbered};

use vol_base::{Failed, Link};

/// An end that can be parted from before it is closed.
pub trait Parting: Link {
    /// Ends what is sent, and takes what still comes for a short while, so that the peer gets all. Nothing that is told
    /// changes.
    fn part(&mut self)
        ensures stream { Self.stream self.new ≡ Self.stream self.old }
        ensures sent { Self.sent self.new ≡ Self.sent self.old }
        ensures faults { Self.faults self.new ≡ Self.faults self.old };
}

/// A place where peers connect.
pub trait Entrance {
    /// The end of a connection.
    type End: Parting + Drop;

    /// The port that was bound, where a listen succeeded.
    ghost bound: { Self → Option ℕ };

    /// How many ends were given.
    ghost accepted: { Self → ℕ };

    /// How often a call failed. It stands still at 2^64 - 1.
    ghost faults: { Self → ℕ };

    /// Binds a port, or any free one for 0, and answers which.
    fn listen(&mut self, port: u16) -> Result<u16, Failed>
        requires { bound self.old ≡ None }
        ensures bound { IfOk result (λ port. bound self.new ≡ Some port) }
        ensures asked { IfOk result (λ bound. port ≢ 0 → bound ≡ port) }
        ensures refused { OnErr result (bound self.new ≡ None) }
        ensures accepted { accepted self.new ≡ accepted self.old }
        ensures cause { HasCause (faults self.old) (faults self.new) result };

    /// Gives the next peer's end, on which nothing was received or sent.
    fn accept(&mut self) -> Result<Self::End, Failed>
        requires { IsSome (bound self.old) }
        ensures fresh { IfOk result (λ end. (Self.End.left end ≡ Self.End.stream end) ×
            (Self.End.sent end ≡ option_map (λ _. []) (Self.End.stream end)) × (Self.End.faults end ≡ 0)) }
        ensures accepted { OnOk result (accepted self.new ≡ accepted self.old + 1) }
        ensures refused { OnErr result (accepted self.new ≡ accepted self.old) }
        ensures bound { bound self.new ≡ bound self.old }
        ensures cause { HasCause (faults self.old) (faults self.new) result };

    /// The count of faults is at most 2^64 - 1.
    ghost counts: { (s : Self) → IsCount (faults s) };
}

/// Where ends of connections go.
pub trait Exit<E: Link> {
    /// The ends that were closed, in order, where they are told: the number, the stream, the sent bytes and the count of
    /// faults of each.
    ghost served: { Self → Option (List Numbered) };

    /// Drops a connection, and notes it.
    fn close(&mut self, number: u64, end: E)
        ensures { Closes (served self.old) number (E.stream end) (E.sent end) (E.faults end) (served self.new) };
}
