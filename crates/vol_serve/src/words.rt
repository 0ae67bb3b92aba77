//! The words of the line.
ghost use Rattle.std.specs.Prelude.{◌≡◌, map, string_bytes};
ghost use Rattle.vol_serve.specs.Words.{KeepsLimits, connections_in, dataset_in, hall_line, in_four, port_in, serving_of, workers_in};

use line_words::{
    is_plain_word, read_connection_count, read_name, read_port, read_worker_count, value_after,
};
use vol_base::Name;

/// A data set, whose name has at most 200 bytes; the port at which it is served, or 0 for a free one; to how many peers, 1 to
/// 65,536; and by how many workers, 1 to 16.
#[derive(Drop)]
pub struct Serving {
    pub dataset: Name,
    pub port: u16,
    pub connections: u32,
    pub workers: u32,
}

// DATASET.
fn read_dataset(word: &str) -> Option<Name>
    ensures { result ≡ dataset_in word.now }
{
    if is_plain_word(word) {
        read_name(word)
    } else {
        None
    }
}

// `--port=P`.
fn read_port_word(word: &str) -> Option<u16>
    ensures { result ≡ port_in word.now }
{
    read_port(value_after("--port=", word)?)
}

// `--connections=N`.
fn read_connections_word(word: &str) -> Option<u32>
    ensures { result ≡ connections_in word.now }
{
    read_connection_count(value_after("--connections=", word)?)
}

// `--workers=W`.
fn read_workers_word(word: &str) -> Option<u32>
    ensures { result ≡ workers_in word.now }
{
    read_worker_count(value_after("--workers=", word)?)
}

fn find_dataset(a: &str, b: &str, c: &str, d: &str) -> Option<Name>
    ensures { result ≡ in_four dataset_in a.now b.now c.now d.now }
{
    read_dataset(a)
        .or(read_dataset(b))
        .or(read_dataset(c))
        .or(read_dataset(d))
}

fn find_port(a: &str, b: &str, c: &str, d: &str) -> Option<u16>
    ensures { result ≡ in_four port_in a.now b.now c.now d.now }
{
    read_port_word(a)
        .or(read_port_word(b))
        .or(read_port_word(c))
        .or(read_port_word(d))
}

fn find_connections(a: &str, b: &str, c: &str, d: &str) -> Option<u32>
    ensures { result ≡ in_four connections_in a.now b.now c.now d.now }
{
    read_connections_word(a)
        .or(read_connections_word(b))
        .or(read_connections_word(c))
        .or(read_connections_word(d))
}

fn find_workers(a: &str, b: &str, c: &str, d: &str) -> Option<u32>
    ensures { result ≡ in_four workers_in a.now b.now c.now d.now }
{
    read_workers_word(a)
        .or(read_workers_word(b))
        .or(read_workers_word(c))
        .or(read_workers_word(d))
}

// Four words, in any order.
fn find_all(a: &str, b: &str, c: &str, d: &str) -> Option<Serving>
    ensures { result ≡ serving_of (in_four dataset_in a.now b.now c.now d.now)
        (in_four port_in a.now b.now c.now d.now) (in_four connections_in a.now b.now c.now d.now)
        (in_four workers_in a.now b.now c.now d.now) }
{
    Some(Serving {
        dataset: find_dataset(a, b, c, d)?,
        port: find_port(a, b, c, d)?,
        connections: find_connections(a, b, c, d)?,
        workers: find_workers(a, b, c, d)?,
    })
}

// The same, which keeps to its limits.
fn read_four(a: &str, b: &str, c: &str, d: &str) -> Option<Serving>
    ensures line { result ≡ serving_of (in_four dataset_in a.now b.now c.now d.now)
        (in_four port_in a.now b.now c.now d.now) (in_four connections_in a.now b.now c.now d.now)
        (in_four workers_in a.now b.now c.now d.now) }
    ensures limits { KeepsLimits result }
{
    find_all(a, b, c, d)
}

/// What the words spell, or None exactly where they spell nothing.
pub fn read_words(words: &[String]) -> Option<Serving>
    ensures line { result ≡ hall_line (map string_bytes words.now) }
    ensures limits { KeepsLimits result }
{
    match words {
        [a, b, c, d] => read_four(a.as_str(), b.as_str(), c.as_str(), d.as_str()),
        _ => None,
    }
}
