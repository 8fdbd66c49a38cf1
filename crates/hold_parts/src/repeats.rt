//! Parts that a list may hold only once, and the first that a list repeats.

ghost use Rattle.std.specs.Prelude.{◌≡◌, Bool};
ghost use Rattle.std.specs.List.{list_any};
ghost use Rattle.base_words.specs.Lists.{repeats_at, first_repeat};
ghost use Rattle.hold_parts.specs.Repeats.{same_name, same_kind, same_id, same_position};

use crate::lists::Fit;
use crate::parts::{Item, Loose, Position};

/// Parts that a list may hold only once, as one position of a name. Two are alike if a list may not hold both.
pub trait Alike {
    ghost alike: { Self → Self → Bool };

    fn is_alike(&self, other: &Self) -> bool
        ensures { result ≡ alike self.now other.now };
}

impl Alike for Position {
    ghost alike = { same_name };

    fn is_alike(&self, other: &Position) -> bool {
        self.name.bytes() == other.name.bytes()
    }
}

impl Alike for Fit {
    ghost alike = { same_kind };

    fn is_alike(&self, other: &Fit) -> bool {
        self.kind == other.kind
    }
}

impl Alike for Item {
    ghost alike = { same_id };

    fn is_alike(&self, other: &Item) -> bool {
        self.id.bytes() == other.id.bytes()
    }
}

impl Alike for Loose {
    ghost alike = { same_position };

    fn is_alike(&self, other: &Loose) -> bool {
        self.position == other.position
    }
}

fn is_among<T: Alike>(part: &T, others: &[T]) -> bool
    ensures { result ≡ list_any (T.alike part.now) others.now }
{
    others.iter().any(|other| part.is_alike(other))
}

fn repeats_at<T: Alike>(list: &[T], place: usize) -> bool
    ensures { result ≡ repeats_at T.alike list.now place }
{
    match list.get(place) {
        Some(part) => is_among(part, &list[..place]),
        None => false,
    }
}

/// The place of the first part that is like an earlier one, and None where each two differ.
#[tactic(auto, using(base_words::proofs::ListLemmas::first_steps))]
pub fn first_repeat<T: Alike>(list: &[T]) -> Option<usize>
    ensures { result ≡ first_repeat T.alike list.now }
{
    for place in 0..list.len() {
        if repeats_at(list, place) {
            return Some(place);
        }
    }
    None
}
