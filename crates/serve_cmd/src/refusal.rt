//! Why `serve` was refused.

use command_base::Status;

/// Why `serve` was refused.
#[derive(Clone, Copy)]
pub enum ServeRefusal {
    OutFault,
    NoMemory,
    DoorFault,
}

impl ServeRefusal {
    ghost use Rattle.std.specs.Prelude.{◌≡◌};
    ghost use Rattle.serve_cmd.specs.Servings.{serve_status};

    /// The status that it ends the command with.
    pub fn status(&self) -> Status
        ensures { result ≡ serve_status self.now }
    {
        match self {
            ServeRefusal::OutFault => Status::OutFault,
            ServeRefusal::NoMemory => Status::NoMemory,
            ServeRefusal::DoorFault => Status::DoorFault,
        }
    }
}
