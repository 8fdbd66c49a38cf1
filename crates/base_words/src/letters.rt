//! Short texts in place.

ghost use Rattle.std.specs.Prelude.{◌≡◌, ◌≤◌, ◌<◌, ◌-◌, ◌++◌, length, replicate, IfSome, IfNone};

use std::marker::Model;

/// A text of at most N bytes, in place.
#[derive(Clone, Copy, Debug)]
pub struct Letters<const N: usize> {
    bytes: [u8; N],
    count: usize,
}

impl<const N: usize> Model for Letters<N> {
    ghost use Rattle.std.specs.Prelude.{◌≡◌, ℕ, ◌-◌, ◌≤◌, List, ◌++◌, length, take, drop, replicate};
    ghost use Rattle.std.proofs.Common.{arith, sym, ap, ◌∙◌, take-append-drop, length-take-le};

    ghost Value = { List ℕ };

    ghost view = { λ l. take l.count l.bytes };

    ghost invariant = { λ l. (l.count ≤ N) × (length l.bytes ≡ N) × (drop l.count l.bytes ≡ replicate (N - l.count) 0) };

    ghost inverse = { λ text. record { bytes = text ++ replicate (N - length text) 0; count = length text } };

    ghost inverse_ok = { λ l h i.
        let whole = length-take-le l.count l.bytes (omega (arith, h.0, h.1)) in
        record {
          bytes = (ap (λ k. take l.count l.bytes ++ replicate (N - k) 0) whole ∙ ap (λ rest. take l.count l.bytes ++ rest) (sym h.2) ∙ take-append-drop l.count l.bytes) i;
          count = whole i;
        } };
}

/// The text with zeros behind it. None exactly where it is longer than N bytes.
#[tactic(auto, using(crate::proofs::LetterLemmas::zeros_behind))]
fn padded<const N: usize>(text: &[u8]) -> Option<[u8; N]>
    ensures some { IfSome result (λ bytes. (length text.now ≤ N) × (bytes ≡ text.now ++ replicate (N - length text.now) 0)) }
    ensures none { IfNone result (N < length text.now) }
{
    let mut bytes = [0; N];
    let (front, _) = bytes.split_at_mut_checked(text.len())?;
    front.copy_from_slice(text);
    Some(bytes)
}

impl<const N: usize> Letters<N> {
    /// The text in place. None exactly where it is longer than N bytes.
    #[tactic(auto, using(crate::proofs::LetterLemmas::text_before, crate::proofs::LetterLemmas::zeros_after))]
    pub fn read(text: &[u8]) -> Option<Letters<N>>
        ensures some { IfSome result (λ letters. letters ≡ text.now) }
        ensures none { IfNone result (N < length text.now) }
    {
        Some(Letters {
            bytes: padded(text)?,
            count: text.len(),
        })
    }

    /// The bytes of the text.
    pub fn as_slice(&self) -> &[u8]
        ensures value { result.now ≡ self.now }
        ensures short { length self.now ≤ N }
    {
        &self.bytes[..self.count]
    }
}
