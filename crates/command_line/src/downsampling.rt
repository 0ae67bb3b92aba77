//! The command `downsample`.
ghost use Rattle.std.specs.Prelude.{◌≡◌, IfOk, IsTrue, map, option_map};
ghost use Rattle.std.specs.List.{list_all};
ghost use Rattle.command_line.specs.Words.{downsample_by, downsample_line, method_in, method_word};
ghost use Rattle.command_line.specs.Parsers.{coarsened};
ghost use Rattle.line_words.specs.Words.{is_plain, short_name};

use crate::commands::Command;
use crate::words::read_write_others;
use line_words::read_name;
use reduce_laws::Method;
use std::alloc::{AllocError, Global};

// `--method=mode` or `--method=mean`.
fn read_method(word: &str) -> Option<Method>
    ensures { result ≡ method_word word.now }
{
    match word {
        "--method=mode" => Some(Method::Mode),
        "--method=mean" => Some(Method::Mean),
        _ => None,
    }
}

// The method among words, of which there is one or two, and the words beside it.
fn find_method<'a>(words: &'a [&'a str]) -> Option<(Method, &'a [&'a str])>
    ensures { option_map (λ found. (found.0, map (λ word. word.now) found.1.now)) result
        ≡ method_in (map (λ word. word.now) words.entry.now) }
{
    match words {
        [word] => Some((read_method(word)?, &words[1..])),
        [first, second] => match read_method(first) {
            Some(method) => Some((method, &words[1..])),
            None => Some((read_method(second)?, &words[..1])),
        },
        _ => None,
    }
}

// The command `downsample`, whose arguments are those of `write`, the key of another scale and a method.
fn add_method(found: Option<Command>, to_key: &str, method: Method) -> Option<Command>
    ensures { result ≡ coarsened found (short_name to_key.now) method }
{
    let Some(
        Command::Write {
            dataset,
            key,
            workers,
        },
    ) = found
    else {
        return None;
    };
    match read_name(to_key) {
        Some(to_key) => Some(Command::Downsample {
            dataset,
            key,
            to_key,
            method,
            workers,
        }),
        None => None,
    }
}

// The command of three plain words and of all others. But for the second key and the method a line of `downsample`
// is one of `write`.
#[tactic(auto, using(crate::proofs::LineSteps::downsample_is))]
fn read_downsample_words(
    alloc: Global,
    dataset: &str,
    key: &str,
    to_key: &str,
    others: &[&str],
) -> Result<Option<Command>, AllocError>
    requires dataset { IsTrue (is_plain dataset.now) }
    requires key { IsTrue (is_plain key.now) }
    ensures { IfOk result (λ command. command ≡ downsample_by (short_name dataset.now) (short_name key.now)
        (short_name to_key.now) (method_in (map (λ word. word.now) others.now))) }
{
    let Some((method, workers)) = find_method(others) else {
        return Ok(None);
    };
    let found = read_write_others(alloc, dataset, key, workers)?;
    Ok(add_method(found, to_key, method))
}

/// `downsample DATASET KEY KEY2 --method=mode|mean [--workers=N]`.
pub(crate) fn read_downsample(
    alloc: Global,
    plain: &[&str],
    others: &[&str],
) -> Result<Option<Command>, AllocError>
    requires { IsTrue (list_all is_plain (map (λ word. word.now) plain.now)) }
    ensures { IfOk result (λ command. command ≡ downsample_line (map (λ word. word.now) plain.now)
        (map (λ word. word.now) others.now)) }
{
    match plain {
        [dataset, key, to_key] => read_downsample_words(alloc, dataset, key, to_key, others),
        _ => Ok(None),
    }
}
