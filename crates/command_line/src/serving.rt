//! The words of `serve`.
ghost use Rattle.std.specs.Prelude.{◌≡◌, IfOk, IsTrue, map, codes, option_and_then, option_map};
ghost use Rattle.std.specs.List.{list_all};
ghost use Rattle.command_line.specs.Parsers.{serve_by};
ghost use Rattle.command_line.specs.Words.{serve_line, serve_of, serve_options};
ghost use Rattle.line_words.specs.Words.{connection_count, is_plain, port_number, short_name, value_after};

use crate::commands::Command;
use crate::parsers::find_values;
use crate::words::is_option;
use line_words::{read_connection_count, read_name, read_port};
use std::alloc::{AllocError, Global};

// The arguments of `serve`.
fn take_serve(values: Option<(&str, &str, &str)>) -> Option<Command>
    ensures { result ≡ serve_by (option_map (λ values. (values.0.now, values.1.now, values.2.now)) values.entry) }
{
    let (dataset, port, connections) = values?;
    Some(Command::Serve {
        dataset: read_name(dataset)?,
        port: read_port(port)?,
        connections: read_connection_count(connections)?,
    })
}

// The command of a plain word and two others, the port first.
fn read_serve_words(
    alloc: Global,
    dataset: &str,
    port: &str,
    connections: &str,
) -> Result<Option<Command>, AllocError>
    requires dataset { IsTrue (is_plain dataset.now) }
    ensures { IfOk result (λ command. command ≡ serve_of (short_name dataset.now)
        (option_and_then port_number (value_after (codes "--port=") port.now))
        (option_and_then connection_count (value_after (codes "--connections=") connections.now))) }
{
    if !is_option(port, "--port=") {
        return Ok(None);
    }
    if !is_option(connections, "--connections=") {
        return Ok(None);
    }
    let words = ["serve", dataset, port, connections];
    let arguments = ("dataset", "port", "connections");
    let values = find_values(alloc, "serve", arguments, 2, &words)?;
    Ok(take_serve(values))
}

// The command of a plain word and two others, in whatever order.
fn read_serve_options(
    alloc: Global,
    dataset: &str,
    first: &str,
    second: &str,
) -> Result<Option<Command>, AllocError>
    requires dataset { IsTrue (is_plain dataset.now) }
    ensures { IfOk result (λ command. command ≡ serve_options dataset.now first.now second.now) }
{
    if is_option(first, "--port=") {
        read_serve_words(alloc, dataset, first, second)
    } else {
        read_serve_words(alloc, dataset, second, first)
    }
}

/// `serve DATASET --port=P --connections=N`, by its plain words and all others.
pub(crate) fn read_serve(
    alloc: Global,
    plain: &[&str],
    others: &[&str],
) -> Result<Option<Command>, AllocError>
    requires { IsTrue (list_all is_plain (map (λ word. word.now) plain.now)) }
    ensures { IfOk result (λ command. command ≡ serve_line (map (λ word. word.now) plain.now)
        (map (λ word. word.now) others.now)) }
{
    match (plain, others) {
        ([dataset], [first, second]) => read_serve_options(alloc, dataset, first, second),
        _ => Ok(None),
    }
}
