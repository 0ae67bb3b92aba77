//! Words, names and boxes.
ghost use Rattle.std.specs.Prelude.{◌≡◌};
ghost use Rattle.std.specs.Option.{option_map};
ghost use Rattle.line_words.specs.Words.{box_of, is_plain, short_name, value_after};

use vol_base::{Box3, Name};

/// Whether a word isn't empty and doesn't begin with `-`.
pub fn is_plain_word(word: &str) -> bool
    ensures { result ≡ is_plain word.now }
{
    !word.is_empty() && word.as_bytes()[0] != b'-'
}

/// A name of at most 200 bytes.
pub fn read_name(word: &str) -> Option<Name>
    ensures { result ≡ short_name word.now }
{
    if word.len() <= 200 {
        Name::new(word.as_bytes())
    } else {
        None
    }
}

/// The box that a word spells.
pub fn read_box(word: &str) -> Option<Box3>
    ensures { result ≡ box_of word.now }
{
    Box3::parse(word).ok()
}

/// What follows an option in a word that begins with it.
pub fn value_after<'a>(option: &str, word: &'a str) -> Option<&'a str>
    ensures { option_map (λ value. value.now) result ≡ value_after option.now word.now }
{
    word.strip_prefix(option)
}
