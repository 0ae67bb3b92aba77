//! How `vol_serve` ends.

use command_base::Status;

/// How `vol_serve` ends: all were served; the words spell nothing; the output failed, or the entrance; or memory ran out.
#[derive(Clone, Copy, Debug, PartialEq, Eq)]
pub enum HallStatus {
    Ok,
    Usage,
    OutFault,
    NoMemory,
    DoorFault,
}

impl HallStatus {
    ghost use Rattle.std.specs.Prelude.{◌≡◌};
    ghost use Rattle.vol_serve.specs.Statuses.{as_status};

    /// The status of commands with the same number and line.
    pub fn status(&self) -> Status
        ensures { result ≡ as_status self.now }
    {
        match self {
            HallStatus::Ok => Status::Ok,
            HallStatus::Usage => Status::Usage,
            HallStatus::OutFault => Status::OutFault,
            HallStatus::NoMemory => Status::NoMemory,
            HallStatus::DoorFault => Status::DoorFault,
        }
    }
}
