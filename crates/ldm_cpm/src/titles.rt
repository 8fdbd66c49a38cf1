//! The first line of a message.

ghost use Rattle.std.specs.Prelude.{◌≡◌, ◌≢◌, List, ◌∷◌};
ghost use Rattle.std.specs.Bool.{OnTrue, OnFalse};
ghost use Rattle.telex.specs.Lines.{PlacedLine};

use telex::Lines;

/// Whether the next line is the title, which it goes behind.
pub fn next_title(title: &[u8], lines: &mut Lines<'_>) -> bool
    ensures found { OnTrue result ((line : PlacedLine) × (lines.old ≡ line ∷ lines.new) × (line.text ≡ title.now)) }
    ensures other { OnFalse result ((line : PlacedLine) (more : List PlacedLine) → lines.old ≡ line ∷ more
        → line.text ≢ title.now) }
{
    match lines.next() {
        Some(line) => line.text == title,
        None => false,
    }
}
