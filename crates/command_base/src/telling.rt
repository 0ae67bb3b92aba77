//! What is told of a refusal.
ghost use Rattle.std.specs.Prelude.{◌≡◌, ◌≢◌, ◌≤◌, List, ℕ, None, IfOk, IfSome};
ghost use Rattle.vol_shell.specs.Effects.{Says};
ghost use Rattle.command_base.specs.Lines.{info_line};
ghost use Rattle.command_base.specs.Refusals.{info_text};
ghost use Rattle.command_base.specs.Statuses.{fixed_line, Reports};
ghost use Rattle.command_base.specs.declared.status.Status.{Status};

use crate::lines::write_info_line;
use crate::refusal::NoScale;
use crate::status::Status;
use std::alloc::{AllocError, Global};
use vol_base::{Name, Outlet};
use vol_shell::say;

/// Why a command was refused: a status, and a line.
pub trait Refusal {
    /// The status that it ends the command with.
    ghost ends: { Self → Status };

    /// Its line, over the name of a data set.
    ghost line: { List ℕ → Self → List ℕ };

    fn status(&self) -> Status
        ensures { result ≡ ends self.now };

    /// The line of a status that doesn't always have the same one.
    fn write_line(&self, alloc: Global, dataset: &Name) -> Result<Vec<u8>, AllocError>
        requires { fixed_line (ends self.now) ≡ None }
        ensures { IfOk result (λ text. text.items ≡ line dataset.now self.now) };

    /// Where the status always has the same line, it is that one.
    ghost fixed: { (dataset : List ℕ) (refusal : Self) →
        IfSome (fixed_line (ends refusal)) (λ text. line dataset refusal ≡ text) };
}

/// Why a data set has no scale.
pub fn write_why(alloc: Global, dataset: &Name, why: &NoScale) -> Result<Vec<u8>, AllocError>
    ensures { IfOk result (λ text. text.items ≡ info_line dataset.now (info_text why.now)) }
{
    match why {
        NoScale::Absent => write_info_line(alloc, dataset, "absent"),
        NoScale::Refused(fault) => {
            let text = fault.to_string(alloc)?;
            write_info_line(alloc, dataset, &text)
        }
    }
}

/// Tells a status by the line that it always has.
pub fn tell<E: Outlet>(err: &mut E, status: Status)
    requires { fixed_line status ≢ None }
    ensures told { IfSome (fixed_line status) (Says (E.written err.old) (E.written err.new) (E.faults err.old)
        (E.faults err.new)) }
    ensures later { E.faults err.old ≤ E.faults err.new }
{
    if let Some(line) = status.fixed_line() {
        say(err, line);
    }
}

/// Tells a refusal by its line, and gives its status. Where there is no memory for the line, that is what is
/// told; a line that a status always has takes none.
pub fn report<E: Outlet, R: Refusal>(
    alloc: Global,
    err: &mut E,
    dataset: &Name,
    refusal: &R,
) -> Status
    ensures told { Reports (R.ends refusal.now) (R.line dataset.now refusal.now) result
        (Says (E.written err.old) (E.written err.new) (E.faults err.old) (E.faults err.new)) }
    ensures later { E.faults err.old ≤ E.faults err.new }
{
    let status = refusal.status();
    if let Some(line) = status.fixed_line() {
        say(err, line);
        return status;
    }
    match refusal.write_line(alloc, dataset) {
        Ok(line) => {
            say(err, &line);
            status
        }
        Err(_) => {
            tell(err, Status::NoMemory);
            Status::NoMemory
        }
    }
}
