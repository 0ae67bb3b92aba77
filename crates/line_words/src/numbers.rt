//! Numbers, and the values of options that are numbers.
ghost use Rattle.std.specs.Prelude.{◌≡◌, ◌≤◌, ◌&&◌, ◌||◌, ◌==◌, length, nat_le, not, slice_index};
ghost use Rattle.std.specs.Char.{is_ascii_digit};
ghost use Rattle.std.specs.List.{list_all};
ghost use Rattle.line_words.specs.Words.{connection_count, is_number, number, port_number, worker_count};

fn are_digits(word: &[u8]) -> bool
    ensures { result ≡ list_all is_ascii_digit word.now }
{
    word.iter().all(|b| b.is_ascii_digit())
}

fn has_one_to_ten(word: &[u8]) -> bool
    ensures { result ≡ (nat_le 1 (length word.now) && nat_le (length word.now) 10) }
{
    !word.is_empty() && word.len() <= 10
}

// Whether no 0 stands before another digit.
fn is_shortest(word: &[u8]) -> bool
    requires { 1 ≤ length word.now }
    ensures { result ≡ (length word.now == 1 || not (slice_index word.now 0 == 48)) }
{
    word.len() == 1 || word[0] != b'0'
}

fn is_number_word(word: &[u8]) -> bool
    ensures { result ≡ is_number word.now }
{
    are_digits(word) && has_one_to_ten(word) && is_shortest(word)
}

/// A number of at most ten digits, with no 0 in front of another digit.
pub fn read_number(word: &str) -> Option<u64>
    ensures { result ≡ number word.now }
{
    if is_number_word(word.as_bytes()) {
        word.parse::<u64>().ok()
    } else {
        None
    }
}

/// N of `--workers=N`.
pub fn read_worker_count(value: &str) -> Option<u32>
    ensures { result ≡ worker_count value.now }
{
    match read_number(value) {
        Some(count) if 1 <= count && count <= 16 => Some(count as u32),
        _ => None,
    }
}

/// P of `--port=P`.
pub fn read_port(value: &str) -> Option<u16>
    ensures { result ≡ port_number value.now }
{
    match read_number(value) {
        Some(port) if port <= 65535 => Some(port as u16),
        _ => None,
    }
}

/// N of `--connections=N`.
pub fn read_connection_count(value: &str) -> Option<u32>
    ensures { result ≡ connection_count value.now }
{
    match read_number(value) {
        Some(count) if 1 <= count && count <= 65536 => Some(count as u32),
        _ => None,
    }
}
