//! What `clap` finds in the words of a command of three arguments: its plain words, and then its options.
ghost use Rattle.std.specs.Prelude.{◌≡◌, IfOk, true, map, nat_lt, option_map};
ghost use Rattle.clap.specs.Words.{app_of, first_value, found_of, takes, with_rule};
ghost use Rattle.command_line.specs.Parsers.{Three, all_three, rule_by, three_app, three_in};

use clap::{Arg, ArgAction, ArgMatches, Command};
use std::alloc::{AllocError, Global};

// With one more argument: an option `--name=value`, or a plain word, which has to be there.
fn with_argument<'a>(
    alloc: Global,
    command: Command<'a>,
    name: &'a str,
    is_option: bool,
) -> Result<Command<'a>, AllocError>
    ensures { IfOk result (λ more. app_of more ≡ with_rule (app_of command.entry)
        (rule_by is_option name.entry.now)) }
{
    if is_option {
        command.arg(Arg::new(alloc, name).long(name).action(ArgAction::Set))
    } else {
        command.arg(Arg::new(alloc, name).required(true))
    }
}

// The command of a name and of three arguments, of which so many of the last ones are options.
fn parser_of<'a>(
    alloc: Global,
    name: &'a str,
    arguments: (&'a str, &'a str, &'a str),
    options: u32,
) -> Result<Command<'a>, AllocError>
    ensures { IfOk result (λ parser. app_of parser ≡ three_app name.entry.now arguments.entry.0.now
        arguments.entry.1.now arguments.entry.2.now options) }
{
    let (first, second, third) = arguments;
    let parser = with_argument(alloc, Command::new(alloc, name), first, false)?;
    let parser = with_argument(alloc, parser, second, 1 < options)?;
    with_argument(alloc, parser, third, 0 < options)
}

// The values of three arguments, where each was found.
fn take_values<'a>(
    found: &ArgMatches<'a>,
    first: &str,
    second: &str,
    third: &str,
) -> Option<(&'a str, &'a str, &'a str)>
    ensures { option_map (λ values. (values.0.now, values.1.now, values.2.now)) result
        ≡ all_three (first_value (found_of found.now) first.now) (first_value (found_of found.now) second.now)
        (first_value (found_of found.now) third.now) }
{
    Some((
        found.get_str(first)?,
        found.get_str(second)?,
        found.get_str(third)?,
    ))
}

/// The values of a command's three arguments in words that it takes, the command's name first; so many of the last
/// arguments are options. Such words are refused for want of memory alone.
pub(crate) fn find_values<'a>(
    alloc: Global,
    name: &'a str,
    arguments: (&'a str, &'a str, &'a str),
    options: u32,
    words: &'a [&'a str],
) -> Result<Option<(&'a str, &'a str, &'a str)>, AllocError>
    requires { takes (three_app name.now arguments.0.now arguments.1.now arguments.2.now options)
        (map (λ word. word.now) words.now) ≡ true }
    ensures { IfOk result (λ found. option_map (λ values. (values.0.now, values.1.now, values.2.now)) found
        ≡ three_in (three_app name.entry.now arguments.entry.0.now arguments.entry.1.now arguments.entry.2.now options)
        (map (λ word. word.now) words.entry.now) arguments.entry.0.now arguments.entry.1.now
        arguments.entry.2.now) }
{
    let parser = parser_of(alloc, name, arguments, options)?;
    let (first, second, third) = arguments;
    match parser.try_get_matches_from(words) {
        Ok(found) => Ok(take_values(&found, first, second, third)),
        Err(_) => Err(AllocError),
    }
}
