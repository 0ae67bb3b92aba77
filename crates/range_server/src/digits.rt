//! Numbers with any number of digits.
ghost use Rattle.std.specs.Prelude.{◌≡◌, true, length, nat_lt};
ghost use Rattle.std.specs.List.{list_all};
ghost use Rattle.std.specs.Char.{is_ascii_digit};
ghost use Rattle.std.specs.Str.Parse.{digits_value};
ghost use Rattle.range_server.specs.Digits.{digits_less, skip_zeros};

// The digits from the first on that isn't `0`.
fn skip_zeros(digits: &[u8]) -> &[u8]
    ensures { result.now ≡ skip_zeros digits.now }
{
    let mut rest = digits;
    while let [b'0', behind @ ..] = rest {
        rest = behind;
    }
    rest
}

// Whether the first of two runs of digits of one length is less.
fn is_less_there(x: &[u8], y: &[u8]) -> bool
    ensures { result ≡ digits_less x.now y.now }
{
    let mut left = x;
    let mut right = y;
    while let [a, after @ ..] = left {
        let [b, behind @ ..] = right else {
            return false;
        };
        if *a != *b {
            return *a < *b;
        }
        left = after;
        right = behind;
    }
    false
}

/// Whether the number of some digits is less than that of others.
pub(crate) fn is_less(x: &[u8], y: &[u8]) -> bool
    requires x { list_all is_ascii_digit x.now ≡ true }
    requires y { list_all is_ascii_digit y.now ≡ true }
    ensures { result ≡ nat_lt (digits_value 10 x.now) (digits_value 10 y.now) }
{
    let left = skip_zeros(x);
    let right = skip_zeros(y);
    if left.len() == right.len() {
        is_less_there(left, right)
    } else {
        left.len() < right.len()
    }
}
