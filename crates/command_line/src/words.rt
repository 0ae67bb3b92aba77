//! The words of the line.
ghost use Rattle.std.specs.Prelude.{◌≡◌, ◌∷◌, IfOk, IsTrue, map, string_bytes, codes, option_and_then, option_map};
ghost use Rattle.std.specs.List.{list_all};
ghost use Rattle.command_line.specs.Parsers.{cutout_by, is_given, write_by, numbered};
ghost use Rattle.command_line.specs.Words.{KeepsLimits, cutout_line, cutout_of, generate_line, generate_of, line, other_words, plain_words, seed, workers, write_count, write_line, write_of};
ghost use Rattle.line_words.specs.Words.{box_of, is_plain, short_name, value_after, worker_count};

use crate::commands::Command;
use crate::downsampling::read_downsample;
use crate::parsers::find_values;
use crate::resharding::read_reshard;
use crate::serving::read_serve;
use crate::updating::read_update;
use crate::verifying::read_verify;
use line_words::{is_plain_word, read_box, read_name, read_number, read_worker_count};
use std::alloc::{AllocError, Global};
use vol_base::OutOfMemory;

// The words of a line after the command's name: the plain ones and the others.
#[derive(Drop)]
struct Sorted<'a> {
    plain: Vec<&'a str>,
    others: Vec<&'a str>,
}

fn sort_words<'a>(alloc: Global, words: &'a [String]) -> Result<Sorted<'a>, AllocError>
    ensures plain { IfOk result (λ sorted. map (λ word. word.now) sorted.plain.items
        ≡ plain_words (map string_bytes words.now)) }
    ensures others { IfOk result (λ sorted. map (λ word. word.now) sorted.others.items
        ≡ other_words (map string_bytes words.now)) }
{
    let mut plain = Vec::new(alloc);
    let mut others = Vec::new(alloc);
    for word in words {
        let word = word.as_str();
        if is_plain_word(word) {
            plain.push(word)?;
        } else {
            others.push(word)?;
        }
    }
    Ok(Sorted { plain, others })
}

// The arguments of `cutout`.
fn take_cutout(values: Option<(&str, &str, &str)>) -> Option<Command>
    ensures { result ≡ cutout_by (option_map (λ values. (values.0.now, values.1.now, values.2.now)) values.entry) }
{
    let (dataset, key, part) = values?;
    Some(Command::Cutout {
        dataset: read_name(dataset)?,
        key: read_name(key)?,
        part: read_box(part)?,
    })
}

// The command of three plain words.
fn read_cutout_words(
    alloc: Global,
    dataset: &str,
    key: &str,
    part: &str,
) -> Result<Option<Command>, AllocError>
    requires dataset { IsTrue (is_plain dataset.now) }
    requires key { IsTrue (is_plain key.now) }
    requires part { IsTrue (is_plain part.now) }
    ensures { IfOk result (λ command. command ≡ cutout_of (short_name dataset.now) (short_name key.now)
        (box_of part.now)) }
{
    let words = ["cutout", dataset, key, part];
    let values = find_values(alloc, "cutout", ("dataset", "key", "box"), 0, &words)?;
    Ok(take_cutout(values))
}

// `cutout DATASET KEY BOX`.
fn read_cutout(
    alloc: Global,
    plain: &[&str],
    others: &[&str],
) -> Result<Option<Command>, AllocError>
    requires { IsTrue (list_all is_plain (map (λ word. word.now) plain.now)) }
    ensures { IfOk result (λ command. command ≡ cutout_line (map (λ word. word.now) plain.now)
        (map (λ word. word.now) others.now)) }
{
    match plain {
        [dataset, key, part] if others.is_empty() => read_cutout_words(alloc, dataset, key, part),
        _ => Ok(None),
    }
}

// The arguments of `write`.
fn take_write(values: Option<(&str, &str, &str)>) -> Option<Command>
    ensures { result ≡ write_by (option_map (λ values. (values.0.now, values.1.now, values.2.now)) values.entry) }
{
    let (dataset, key, workers) = values?;
    Some(Command::Write {
        dataset: read_name(dataset)?,
        key: read_name(key)?,
        workers: read_worker_count(workers)?,
    })
}

/// Whether a word is an option with a value: `--name=` with something behind it.
pub(crate) fn is_option(word: &str, option: &str) -> bool
    ensures { result ≡ is_given (value_after option.now word.now) }
{
    option.len() < word.len() && word.as_bytes().starts_with(option.as_bytes())
}

// The command of two plain words and another word.
fn read_write_words(
    alloc: Global,
    dataset: &str,
    key: &str,
    workers: &str,
) -> Result<Option<Command>, AllocError>
    requires dataset { IsTrue (is_plain dataset.now) }
    requires key { IsTrue (is_plain key.now) }
    ensures { IfOk result (λ command. command ≡ write_of (short_name dataset.now) (short_name key.now)
        (option_and_then worker_count (value_after (codes "--workers=") workers.now))) }
{
    if !is_option(workers, "--workers=") {
        return Ok(None);
    }
    let words = ["write", dataset, key, workers];
    let values = find_values(alloc, "write", ("dataset", "key", "workers"), 1, &words)?;
    Ok(take_write(values))
}

/// The command of two plain words and of all others.
#[tactic(auto, using(crate::proofs::LineSteps::too_many_options))]
pub(crate) fn read_write_others(
    alloc: Global,
    dataset: &str,
    key: &str,
    others: &[&str],
) -> Result<Option<Command>, AllocError>
    requires dataset { IsTrue (is_plain dataset.now) }
    requires key { IsTrue (is_plain key.now) }
    ensures { IfOk result (λ command. command ≡ write_of (short_name dataset.now) (short_name key.now)
        (workers (map (λ word. word.now) others.now))) }
{
    match others {
        [] => read_write_words(alloc, dataset, key, "--workers=1"),
        [workers] => read_write_words(alloc, dataset, key, workers),
        [_, _, ..] => Ok(None),
    }
}

/// `write DATASET KEY [--workers=N]`.
pub(crate) fn read_write(
    alloc: Global,
    plain: &[&str],
    others: &[&str],
) -> Result<Option<Command>, AllocError>
    requires { IsTrue (list_all is_plain (map (λ word. word.now) plain.now)) }
    ensures { IfOk result (λ command. command ≡ write_line (map (λ word. word.now) plain.now)
        (map (λ word. word.now) others.now)) }
{
    match plain {
        [dataset, key] => read_write_others(alloc, dataset, key, others),
        _ => Ok(None),
    }
}

// NUMBER.
fn read_seed(word: &str) -> Option<u32>
    ensures { result ≡ seed word.now }
{
    match read_number(word) {
        Some(number) if number < 1 << 31 => Some(number as u32),
        _ => None,
    }
}

// WRITES.
fn read_write_count(word: &str) -> Option<u32>
    ensures { result ≡ write_count word.now }
{
    match read_number(word) {
        Some(count) if count <= 4096 => Some(count as u32),
        _ => None,
    }
}

// The command `generate`, whose arguments are those of `write` and two numbers.
fn add_numbers(found: Option<Command>, number: &str, writes: &str) -> Option<Command>
    ensures { result ≡ numbered found (seed number.now) (write_count writes.now) }
{
    let Some(
        Command::Write {
            dataset,
            key,
            workers,
        },
    ) = found
    else {
        return None;
    };
    match (read_seed(number), read_write_count(writes)) {
        (Some(number), Some(writes)) => Some(Command::Generate {
            dataset,
            key,
            number,
            writes,
            workers,
        }),
        _ => None,
    }
}

// The command of four plain words and of all others. But for its numbers a line of `generate` is one of `write`.
#[tactic(auto, using(crate::proofs::LineSteps::generate_is))]
fn read_numbered(
    alloc: Global,
    dataset: &str,
    key: &str,
    number: &str,
    writes: &str,
    others: &[&str],
) -> Result<Option<Command>, AllocError>
    requires dataset { IsTrue (is_plain dataset.now) }
    requires key { IsTrue (is_plain key.now) }
    ensures { IfOk result (λ command. command ≡ generate_of (short_name dataset.now) (short_name key.now)
        (seed number.now) (write_count writes.now) (workers (map (λ word. word.now) others.now))) }
{
    let found = read_write_others(alloc, dataset, key, others)?;
    Ok(add_numbers(found, number, writes))
}

// `generate DATASET KEY NUMBER WRITES [--workers=N]`.
fn read_generate(
    alloc: Global,
    plain: &[&str],
    others: &[&str],
) -> Result<Option<Command>, AllocError>
    requires { IsTrue (list_all is_plain (map (λ word. word.now) plain.now)) }
    ensures { IfOk result (λ command. command ≡ generate_line (map (λ word. word.now) plain.now)
        (map (λ word. word.now) others.now)) }
{
    match plain {
        [dataset, key, number, writes] => {
            read_numbered(alloc, dataset, key, number, writes, others)
        }
        _ => Ok(None),
    }
}

// The command of this name, by the words after it.
fn read_command(
    alloc: Global,
    command: &str,
    words: &[String],
) -> Result<Option<Command>, AllocError>
    ensures { IfOk result (λ found. found ≡ line (command.now ∷ map string_bytes words.now)) }
{
    let sorted = sort_words(alloc, words)?;
    match command {
        "cutout" => read_cutout(alloc, &sorted.plain, &sorted.others),
        "write" => read_write(alloc, &sorted.plain, &sorted.others),
        "update" => read_update(alloc, &sorted.plain, &sorted.others),
        "generate" => read_generate(alloc, &sorted.plain, &sorted.others),
        "reshard" => read_reshard(alloc, &sorted.plain, &sorted.others),
        "downsample" => read_downsample(alloc, &sorted.plain, &sorted.others),
        "verify" => Ok(read_verify(&sorted.plain, &sorted.others)),
        "serve" => read_serve(alloc, &sorted.plain, &sorted.others),
        _ => Ok(None),
    }
}

// Knows that the command that words spell keeps its limits.
fn tell_limits(words: &[String], found: &Option<Command>)
    requires { found.now ≡ line (map string_bytes words.now) }
    ensures { KeepsLimits found.now }
{}

/// The command that the words spell, or None exactly where they spell none.
pub fn read_words(alloc: Global, words: &[String]) -> Result<Option<Command>, OutOfMemory>
    ensures line { IfOk result (λ command. command ≡ line (map string_bytes words.now)) }
    ensures limits { IfOk result KeepsLimits }
{
    let [command, arguments @ ..] = words else {
        return Ok(None);
    };
    match read_command(alloc, command.as_str(), arguments) {
        Ok(found) => {
            tell_limits(words, &found);
            Ok(found)
        }
        Err(_) => Err(OutOfMemory),
    }
}
