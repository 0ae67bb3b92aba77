//! The command `verify`.
ghost use Rattle.std.specs.Prelude.{◌≡◌, map, option_map};
ghost use Rattle.command_line.specs.Words.{part_of, verify_line, verify_of};
ghost use Rattle.line_words.specs.Words.{short_name};

use crate::commands::Command;
use line_words::{read_box, read_name};
use vol_base::Box3;

// BOX, or none: all of the scale.
fn read_part(word: Option<&str>) -> Option<Option<Box3>>
    ensures { result ≡ part_of (option_map (λ word. word.now) word.entry) }
{
    match word {
        None => Some(None),
        Some(word) => match read_box(word) {
            Some(part) => Some(Some(part)),
            None => None,
        },
    }
}

// The arguments of `verify`.
fn take_verify(dataset: &str, key: &str, part: Option<&str>) -> Option<Command>
    ensures { result ≡ verify_of (short_name dataset.now) (short_name key.now)
        (part_of (option_map (λ word. word.now) part.entry)) }
{
    Some(Command::Verify {
        dataset: read_name(dataset)?,
        key: read_name(key)?,
        part: read_part(part)?,
    })
}

/// `verify DATASET KEY [BOX]`.
pub(crate) fn read_verify(plain: &[&str], others: &[&str]) -> Option<Command>
    ensures { result ≡ verify_line (map (λ word. word.now) plain.now) (map (λ word. word.now) others.now) }
{
    match plain {
        [dataset, key] if others.is_empty() => take_verify(dataset, key, None),
        [dataset, key, part] if others.is_empty() => take_verify(dataset, key, Some(part)),
        _ => None,
    }
}
