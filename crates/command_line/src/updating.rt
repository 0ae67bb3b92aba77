//! The command `update`.
ghost use Rattle.std.specs.Prelude.{◌≡◌, IfOk, IsTrue, map};
ghost use Rattle.std.specs.List.{list_all};
ghost use Rattle.command_line.specs.Words.{update_line};
ghost use Rattle.command_line.specs.Parsers.{over};
ghost use Rattle.line_words.specs.Words.{is_plain};

use crate::commands::Command;
use crate::words::read_write;
use std::alloc::{AllocError, Global};

// The command `update`, whose arguments are those of `write`.
fn put_over(found: Option<Command>) -> Option<Command>
    ensures { result ≡ over found }
{
    let Some(
        Command::Write {
            dataset,
            key,
            workers,
        },
    ) = found
    else {
        return None;
    };
    Some(Command::Update {
        dataset,
        key,
        workers,
    })
}

/// `update DATASET KEY [--workers=N]`. But for the command's name a line of `update` is one of `write`.
#[tactic(auto, using(crate::proofs::LineSteps::update_is))]
pub(crate) fn read_update(
    alloc: Global,
    plain: &[&str],
    others: &[&str],
) -> Result<Option<Command>, AllocError>
    requires { IsTrue (list_all is_plain (map (λ word. word.now) plain.now)) }
    ensures { IfOk result (λ command. command ≡ update_line (map (λ word. word.now) plain.now)
        (map (λ word. word.now) others.now)) }
{
    let found = read_write(alloc, plain, others)?;
    Ok(put_over(found))
}
