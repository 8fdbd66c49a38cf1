//! Readers of the first line and of the lines of containers.

ghost use Rattle.std.specs.Prelude.{◌≡◌, ◌≢◌, IfSome, IfNone};
ghost use Rattle.problem_text.specs.TaskText.{item_line, IsSpelledItem};
ghost use Rattle.problem_text.specs.Reading.{IsVersionLine};
ghost use Rattle.problem_text.specs.Grammar.{version_line};
ghost use Rattle.hold_parts.specs.declared.parts.Item.{Item};

use crate::parts::Version;
use hold_limits::Item;
use text_lines::{IdWord, Last, MassWord, Then, read_fields};

/// The form of a text that has this first line.
pub fn read_version(line: &[u8]) -> Option<Version>
    ensures found { IfSome result (λ version. line.now ≡ version_line version) }
    ensures none { IfNone result (IsVersionLine line.now → ⊥) }
{
    match line {
        b"TASK 1" => Some(Version::One),
        b"TASK 2" => Some(Version::Two),
        _ => None,
    }
}

/// The container of a line `item ID MASS`.
pub fn read_item(line: &[u8]) -> Option<Item>
    ensures found { IfSome result (λ item. IsSpelledItem item × (line.now ≡ item_line item)) }
    ensures none { IfNone result ((item : Item) → IsSpelledItem item → line.now ≢ item_line item) }
{
    let (id, mass) = read_fields(b"item ", &Then(IdWord, Last(MassWord)), line)?;
    Some(Item { id, mass })
}
