//! Laws of the definitions.

ghost use Rattle.std.specs.Prelude.{◌≡◌, ◌≢◌, ℕ, List, ℤ, Some, None};
ghost use Rattle.mass_units.specs.Spelling.{index_text, IsIndex};
ghost use Rattle.std.specs.Result.{result_err};
ghost use Rattle.aircraft_file.specs.Craft.{craft_in};
ghost use Rattle.aircraft_file.specs.Document.{Contents};
ghost use Rattle.aircraft_file.specs.Keys.{AreFrom, all_keys, first_of, key_values};
ghost use Rattle.aircraft_file.specs.Spellings.{index_spelled};

/// What a text spells as an index: the text of an index spells that index, and no other text spells one.
#[tactic(auto, using(crate::proofs::IndexLemmas::one_index))]
pub fn index_laws()
    ensures spelled { (z : ℤ) → IsIndex z → index_spelled (index_text z) ≡ Some z }
    ensures none { (text : List ℕ) → ((z : ℤ) → IsIndex z → text ≢ index_text z)
        → index_spelled text ≡ None }
{}

/// Which key decides where keys of a file fail: of all keys, each taken by itself, the first in the order of
/// their numbers that is missing or wrong. What the keys say depends on the values of these keys alone.
#[tactic(auto, using(crate::proofs::KeyLemmas::keys_first))]
pub fn file_laws()
    ensures first { (document : Contents) → result_err (craft_in document)
        ≡ first_of (all_keys document) }
    ensures alone { (a b : Contents) → key_values a ≡ key_values b → craft_in a ≡ craft_in b }
    ensures numbers { (document : Contents) → AreFrom 1 (all_keys document) }
{}
