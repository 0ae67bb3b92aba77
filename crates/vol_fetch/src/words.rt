//! The words of the line.
ghost use Rattle.std.specs.Prelude.{◌≡◌, ◌≤◌, ◌&&◌, ◌==◌, IfSome, IsTrue, length, map, nat_le, not, slice_index, string_bytes};
ghost use Rattle.std.specs.Char.{is_ascii_digit};
ghost use Rattle.std.specs.List.{list_all};
ghost use Rattle.remote_store.specs.Hosts.{is_host};
ghost use Rattle.vol_fetch.specs.Words.{digits_of, fetch_line, first_word, is_port_word, port_of, port_within, request_of, scale_line, short_name};
ghost use Rattle.line_words.specs.Words.{box_of};

use line_words::read_box;
use remote_store::is_host;
use vol_base::{Box3, Name};

/// A port of a host, and a box of the scale of a key of a data set. Names have at most 200 bytes.
#[derive(Drop)]
pub struct Request {
    pub port: u16,
    pub dataset: Name,
    pub key: Name,
    pub part: Box3,
}

fn are_digits(word: &[u8]) -> bool
    ensures { result ≡ list_all is_ascii_digit word.now }
{
    word.iter().all(|b| b.is_ascii_digit())
}

fn has_one_to_five(word: &[u8]) -> bool
    ensures { result ≡ (nat_le 1 (length word.now) && nat_le (length word.now) 5) }
{
    !word.is_empty() && word.len() <= 5
}

// Whether a word begins with a byte, which isn't 0.
fn begins_with(word: &[u8], byte: u8) -> bool
    requires { 1 ≤ byte }
    ensures { result ≡ (slice_index word.now 0 == byte) }
{
    match word {
        [] => false,
        [first, ..] => *first == byte,
    }
}

fn is_port_word(word: &[u8]) -> bool
    ensures { result ≡ is_port_word word.now }
{
    are_digits(word) && has_one_to_five(word) && !begins_with(word, b'0')
}

fn keep_port(n: u64) -> Option<u16>
    ensures { result ≡ port_within n }
{
    if 1 <= n && n <= 65535 {
        Some(n as u16)
    } else {
        None
    }
}

fn read_digits(word: &str) -> Option<u64>
    ensures { result ≡ digits_of word.now }
{
    if is_port_word(word.as_bytes()) {
        word.parse::<u64>().ok()
    } else {
        None
    }
}

fn read_port(word: &str) -> Option<u16>
    ensures { result ≡ port_of word.now }
{
    keep_port(read_digits(word)?)
}

fn has_short_form(word: &[u8]) -> bool
    ensures { result ≡ (nat_le (length word.now) 200 && not (slice_index word.now 0 == 45)) }
{
    word.len() <= 200 && !begins_with(word, b'-')
}

fn read_name(word: &str) -> Option<Name>
    ensures name { result ≡ short_name word.now }
    ensures short { IfSome result (λ name. length name ≤ 200) }
{
    if has_short_form(word.as_bytes()) {
        Name::new(word.as_bytes())
    } else {
        None
    }
}

fn read_request(port: Option<u16>, dataset: &str, key: &str, part: &str) -> Option<Request>
    ensures read { result ≡ request_of port (short_name dataset.now) (short_name key.now) (box_of part.now) }
    ensures short { IfSome result (λ r. (length r.dataset ≤ 200) × (length r.key ≤ 200)) }
{
    Some(Request {
        port: port?,
        dataset: read_name(dataset)?,
        key: read_name(key)?,
        part: read_box(part)?,
    })
}

// What stands behind the port.
fn read_scale_words(port: Option<u16>, words: &[String]) -> Option<Request>
    ensures read { result ≡ scale_line port (map string_bytes words.now) }
    ensures short { IfSome result (λ r. (length r.dataset ≤ 200) × (length r.key ≤ 200)) }
{
    match words {
        [dataset, key, part] => read_request(port, dataset.as_str(), key.as_str(), part.as_str()),
        _ => None,
    }
}

/// `HOST PORT DATASET KEY BOX`, but for the host.
pub fn read_words(words: &[String]) -> Option<Request>
    ensures read { result ≡ fetch_line (map string_bytes words.now) }
    ensures short { IfSome result (λ r. (length r.dataset ≤ 200) × (length r.key ≤ 200)) }
    ensures host { IfSome result (λ _. IsTrue (is_host (first_word (map string_bytes words.now)))) }
{
    match words {
        [host, port, behind @ ..] => {
            if is_host(host.as_str().as_bytes()) {
                read_scale_words(read_port(port.as_str()), behind)
            } else {
                None
            }
        }
        _ => None,
    }
}

/// HOST.
pub fn first_word(words: &[String]) -> &str
    ensures { result.now ≡ first_word (map string_bytes words.now) }
{
    match words {
        [] => "",
        [word, ..] => word.as_str(),
    }
}
