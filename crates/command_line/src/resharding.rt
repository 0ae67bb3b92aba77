//! The command `reshard`.
ghost use Rattle.std.specs.Prelude.{◌≡◌, IfOk, IsTrue, map};
ghost use Rattle.std.specs.List.{list_all};
ghost use Rattle.command_line.specs.Words.{reshard_line, reshard_of, workers};
ghost use Rattle.command_line.specs.Parsers.{targeted};
ghost use Rattle.line_words.specs.Words.{is_plain, short_name};

use crate::commands::Command;
use crate::words::read_write_others;
use line_words::read_name;
use std::alloc::{AllocError, Global};

// The command `reshard`, whose arguments are those of `write` and the names of another scale.
fn add_target(found: Option<Command>, dataset: &str, key: &str) -> Option<Command>
    ensures { result ≡ targeted found (short_name dataset.now) (short_name key.now) }
{
    let Some(
        Command::Write {
            dataset: from_dataset,
            key: from_key,
            workers,
        },
    ) = found
    else {
        return None;
    };
    match (read_name(dataset), read_name(key)) {
        (Some(to_dataset), Some(to_key)) => Some(Command::Reshard {
            dataset: from_dataset,
            key: from_key,
            to_dataset,
            to_key,
            workers,
        }),
        _ => None,
    }
}

// The command of four plain words and of all others. But for the second scale a line of `reshard` is one of `write`.
#[tactic(auto, using(crate::proofs::LineSteps::reshard_is))]
fn read_reshard_words(
    alloc: Global,
    dataset: &str,
    key: &str,
    to_dataset: &str,
    to_key: &str,
    others: &[&str],
) -> Result<Option<Command>, AllocError>
    requires dataset { IsTrue (is_plain dataset.now) }
    requires key { IsTrue (is_plain key.now) }
    ensures { IfOk result (λ command. command ≡ reshard_of (short_name dataset.now) (short_name key.now)
        (short_name to_dataset.now) (short_name to_key.now) (workers (map (λ word. word.now) others.now))) }
{
    let found = read_write_others(alloc, dataset, key, others)?;
    Ok(add_target(found, to_dataset, to_key))
}

/// `reshard DATASET KEY DATASET2 KEY2 [--workers=N]`.
pub(crate) fn read_reshard(
    alloc: Global,
    plain: &[&str],
    others: &[&str],
) -> Result<Option<Command>, AllocError>
    requires { IsTrue (list_all is_plain (map (λ word. word.now) plain.now)) }
    ensures { IfOk result (λ command. command ≡ reshard_line (map (λ word. word.now) plain.now)
        (map (λ word. word.now) others.now)) }
{
    match plain {
        [dataset, key, to_dataset, to_key] => {
            read_reshard_words(alloc, dataset, key, to_dataset, to_key, others)
        }
        _ => Ok(None),
    }
}
