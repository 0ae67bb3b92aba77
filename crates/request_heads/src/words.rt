//! Numbers and members of lists.
ghost use Rattle.std.specs.Prelude.{◌≡◌};
ghost use Rattle.request_heads.specs.Words.{count_of, has_close, is_blank, is_close, skip_blank, trimmed};

/// The number of one or more digits, of which there may be any number; the greatest of 64 bits stands for all
/// above it.
pub fn read_count(text: &[u8]) -> Option<u64>
    ensures { result ≡ count_of text.now }
{
    if text.is_empty() {
        return None;
    }
    let mut count = 0u64;
    for b in text {
        if !b.is_ascii_digit() {
            return None;
        }
        count = count.saturating_mul(10).saturating_add((*b - b'0') as u64);
    }
    Some(count)
}

/// Whether a byte is a space or a tab.
pub(crate) fn is_blank(b: u8) -> bool
    ensures { result ≡ is_blank b }
{
    b == b' ' || b == b'\t'
}

// The bytes from the first on that is no blank.
fn skip_front(text: &[u8]) -> &[u8]
    ensures { result.now ≡ skip_blank text.now }
{
    let mut rest = text;
    while let [b, behind @ ..] = rest {
        if !is_blank(*b) {
            break;
        }
        rest = behind;
    }
    rest
}

fn is_close(member: &[u8]) -> bool
    ensures { result ≡ is_close member.now }
{
    trim(member).eq_ignore_ascii_case(b"close")
}

/// The bytes without the blanks, spaces and tabs, at both ends.
pub fn trim(text: &[u8]) -> &[u8]
    ensures { result.now ≡ trimmed text.now }
{
    let mut rest = skip_front(text);
    while let [before @ .., b] = rest {
        if !is_blank(*b) {
            break;
        }
        rest = before;
    }
    rest
}

/// Whether a list that commas separate has the member `close`, in any case.
pub fn has_close(value: &[u8]) -> bool
    ensures { result ≡ has_close value.now }
{
    value.split(|b| *b == b',').any(is_close)
}
