//! Where a text is split: at the end of a line, and between words.

ghost use Rattle.std.specs.Prelude.{◌≡◌, ◌≢◌, ℕ, List, ◌∷◌, ◌++◌, IfSome, IfNone, IsSomeAnd};
ghost use Rattle.text_lines.specs.Cuts.{Avoids, IsCutAt};

/// The bytes before the first `mark`, and those from it on, which are none where it does not occur.
pub fn cut(mark: u8, text: &[u8]) -> (&[u8], &[u8])
    ensures whole { text.now ≡ result.0.now ++ result.1.now }
    ensures front { Avoids mark result.0.now }
    ensures rest { IsCutAt mark result.1.now }
{
    let at = text
        .iter()
        .position(|byte| *byte == mark)
        .unwrap_or(text.len());
    text.split_at(at)
}

/// The bytes after the prefix. None where the text does not begin with it.
pub fn after_prefix<'a>(prefix: &[u8], text: &'a [u8]) -> Option<&'a [u8]>
    ensures found { IfSome result (λ rest. text.now ≡ prefix.now ++ rest.now) }
    ensures none { IfNone result ((rest : List ℕ) → text.now ≢ prefix.now ++ rest) }
{
    text.strip_prefix(prefix)
}

/// The bytes before the first `mark`, and those after it. None where it does not occur.
pub fn split_once(mark: u8, text: &[u8]) -> Option<(&[u8], &[u8])>
    ensures found { IfSome result (λ x. (text.now ≡ x.0.now ++ mark ∷ x.1.now) × Avoids mark x.0.now) }
    ensures none { IfNone result (Avoids mark text.now) }
    ensures read_back { (front rest : List ℕ) → Avoids mark front → text.now ≡ front ++ mark ∷ rest
        → IsSomeAnd result (λ x. (x.0.now ≡ front) × (x.1.now ≡ rest)) }
{
    let (front, rest) = cut(mark, text);
    match rest {
        [] => None,
        [_, rest @ ..] => Some((front, rest)),
    }
}
