//! Paths that are made of others.

ghost use Rattle.std.specs.Prelude.{◌≡◌, ◌<◌, ◌++◌, ◌∷◌, [], length};

use hold_limits::Path;

/// The numbers with one more.
pub fn longer(prefix: &[u8], number: u8) -> Path
    requires { length prefix.now < 60 }
    ensures { result.items ≡ prefix.now ++ number ∷ [] }
{
    let mut path = Path::new();
    if path.try_extend_from_slice(prefix).is_err() {
        unreachable!();
    }
    path.push(number);
    path
}
