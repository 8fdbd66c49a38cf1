//! Lines of a keyword and of fields: words that state values, with one space between two of them.

ghost use Rattle.std.specs.Prelude.{◌≡◌, ◌≢◌, ◌+◌, ◌∷◌, ◌++◌, IfSome, IfNone, IfOk, IfErr, OnOk};
ghost use Rattle.text_lines.specs.Lines.{IsStopped};
ghost use Rattle.text_lines.specs.Sections.{Says, IsOfKind};

use crate::cuts::{after_prefix, split_once};
use crate::fault::LineFault;
use crate::lines::Lines;

/// A kind of word.
pub trait WordReader {
    ghost use Rattle.std.specs.Prelude.{◌≢◌, ℕ, List, IfSome, IfNone};
    ghost use Rattle.text_lines.specs.Cuts.{Avoids};
    ghost use Rattle.text_lines.specs.Sections.{Says};

    /// What such a word states.
    type Value: Drop;

    ghost text: { Self → Self.Value → List ℕ };

    ghost spelled: { Self → Self.Value → Type 0 };

    ghost keep: { Self → Self.Value → Self.Value };

    /// What the word states. None exactly where it is not of this kind.
    fn read(&self, word: &[u8]) -> Option<Self::Value>
        ensures found { IfSome result (Says (text self.now) (spelled self.now) (keep self.now) word.now) }
        ensures none { IfNone result ((x : Self.Value) → spelled self.now x → word.now ≢ text self.now x) };

    ghost plain: { (s : Self) (x : Self.Value) → spelled s x → Avoids 32 (text s x) };
}

/// The fields of a kind of line.
pub trait FieldReader {
    ghost use Rattle.std.specs.Prelude.{◌≢◌, ℕ, List, IfSome, IfNone};
    ghost use Rattle.text_lines.specs.Sections.{Says};

    /// What they state.
    type Value: Drop;

    ghost text: { Self → Self.Value → List ℕ };

    ghost spelled: { Self → Self.Value → Type 0 };

    ghost keep: { Self → Self.Value → Self.Value };

    /// What the words state. None exactly where they are not such fields.
    fn read(&self, words: &[u8]) -> Option<Self::Value>
        ensures found { IfSome result (Says (text self.now) (spelled self.now) (keep self.now) words.now) }
        ensures none { IfNone result ((x : Self.Value) → spelled self.now x → words.now ≢ text self.now x) };
}

/// The last field of a line.
#[derive(Clone, Copy)]
pub struct Last<W>(pub W);

/// A field, and those behind it.
#[derive(Clone, Copy)]
pub struct Then<W, F>(pub W, pub F);

impl<W: WordReader> FieldReader for Last<W> {
    type Value = W::Value;

    ghost text = { λ s x. W.text s.0 x };

    ghost spelled = { λ s x. W.spelled s.0 x };

    ghost keep = { λ s x. W.keep s.0 x };

    fn read(&self, words: &[u8]) -> Option<W::Value> {
        self.0.read(words)
    }
}

impl<W: WordReader, F: FieldReader> FieldReader for Then<W, F> {
    ghost use Rattle.std.specs.Prelude.{◌∷◌, ◌++◌};

    type Value = (W::Value, F::Value);

    ghost text = { λ s x. W.text s.0 x.0 ++ 32 ∷ F.text s.1 x.1 };

    ghost spelled = { λ s x. W.spelled s.0 x.0 × F.spelled s.1 x.1 };

    ghost keep = { λ s x. (W.keep s.0 x.0, F.keep s.1 x.1) };

    fn read(&self, words: &[u8]) -> Option<(W::Value, F::Value)> {
        let (word, rest) = split_once(b' ', words)?;
        Some((self.0.read(word)?, self.1.read(rest)?))
    }
}

/// What a line says after the keyword and its space.
pub fn read_said<F: FieldReader>(keyword: &[u8], fields: &F, line: &[u8]) -> Option<F::Value>
    ensures found { IfSome result (Says (λ x. keyword.now ++ F.text fields.now x) (F.spelled fields.now) (F.keep fields.now) line.now) }
    ensures none { IfNone result ((x : F.Value) → F.spelled fields.now x → line.now ≢ keyword.now ++ F.text fields.now x) }
{
    fields.read(after_prefix(keyword, line)?)
}

/// The same of fields of which all is kept.
pub fn read_fields<F: FieldReader>(keyword: &[u8], fields: &F, line: &[u8]) -> Option<F::Value>
    requires { (x : F.Value) → F.keep fields.now x ≡ x }
    ensures found { IfSome result (λ got. F.spelled fields.now got × (line.now ≡ keyword.now ++ F.text fields.now got)) }
    ensures none { IfNone result ((x : F.Value) → F.spelled fields.now x → line.now ≢ keyword.now ++ F.text fields.now x) }
{
    read_said(keyword, fields, line)
}

/// What the next line says, of which all is kept. Fails where it is not of this kind.
pub fn next_fields<F: FieldReader>(
    keyword: &[u8],
    fields: &F,
    lines: &mut Lines<'_>,
) -> Result<F::Value, LineFault>
    requires { (x : F.Value) → F.keep fields.now x ≡ x }
    ensures read { IfOk result (λ got. F.spelled fields.now got
        × (lines.old.rest.now ≡ (keyword.now ++ F.text fields.now got) ++ 10 ∷ lines.new.rest.now)) }
    ensures counted { OnOk result (lines.new.number ≡ lines.old.number + 1) }
    ensures refused { IfErr result (IsStopped lines.old.rest.now lines.old.number
        (IsOfKind (λ x. keyword.now ++ F.text fields.now x) (F.spelled fields.now))) }
{
    let number = lines.number;
    read_fields(keyword, fields, lines.next_line()?).ok_or(LineFault::Line(number))
}
