//! The flight's key and the edition in a path.

ghost use Rattle.std.specs.Prelude.{◌≡◌, ◌≤◌, ◌<◌, ◌==◌, ℕ, length, position, IfSome, IfNone};
ghost use Rattle.desk_routes.specs.Targets.{IsEdition, behind, edition_in, front, key_in, slash_at};

use mass_units::read_long_number;

/// The place of the first slash, or of the end.
fn slash_at(text: &[u8]) -> usize
    ensures place { result ≡ slash_at text.now }
    ensures within { result ≤ length text.now }
{
    first_slash(text).unwrap_or(text.len())
}

fn first_slash(text: &[u8]) -> Option<usize>
    ensures place { result ≡ position (λ byte. byte == 47) text.now }
    ensures within { IfSome result (λ at. at < length text.now) }
{
    text.iter().position(|byte| is_slash(*byte))
}

fn is_slash(byte: u8) -> bool
    ensures { result ≡ (byte == 47) }
{
    byte == b'/'
}

/// The bytes before the first slash.
fn front(text: &[u8]) -> &[u8]
    ensures { result.now ≡ front text.now }
{
    &text[..slash_at(text)]
}

/// The bytes after the first slash.
fn behind(text: &[u8]) -> &[u8]
    ensures { result.now ≡ behind text.now }
{
    match &text[slash_at(text)..] {
        [] => &[],
        [_, rest @ ..] => rest,
    }
}

/// The key of the flight that a path names, which may be spelled wrong.
pub fn key_in(target: &[u8]) -> &[u8]
    ensures { result.now ≡ key_in target.now }
{
    front(behind(behind(target)))
}

/// The edition that a path names, which may be spelled wrong.
pub fn edition_in(target: &[u8]) -> &[u8]
    ensures { result.now ≡ edition_in target.now }
{
    front(behind(behind(behind(behind(target)))))
}

/// The edition that the text spells: 1 to 4,294,967,295.
pub fn read_edition(text: &[u8]) -> Option<u32>
    ensures some { IfSome result (IsEdition text.now) }
    ensures none { IfNone result ((edition : ℕ) → IsEdition text.now edition → ⊥) }
{
    match read_long_number(text) {
        Some(0) | None => None,
        Some(edition) => Some(edition),
    }
}
