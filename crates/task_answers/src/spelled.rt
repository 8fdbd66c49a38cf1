//! Whether a certificate of trees can be spelled, so that its text is read back.

ghost use Rattle.std.specs.Prelude.{IsTrue, All};
ghost use Rattle.mass_units.specs.Spelling.{IsNumber};
ghost use Rattle.text_lines.specs.Names.{IsNamed};
ghost use Rattle.certificate.specs.CertificateText.{IsSpelledClaim};
ghost use Rattle.tree_certificate.specs.Listed.{listed_prices, listed_sibling, listed_trees};
ghost use Rattle.tree_certificate.specs.TreeText.{AreSpelledPrices, IsSpelled, IsSpelledLeast, IsSpelledOperation, IsSpelledPrice, IsSpelledPriceList, IsSpelledSet, IsSpelledSibling};

use hold_limits::{Hold, Task};
use position_set::PositionSet;
use tree_certificate::{Operation, Price, PriceList, Sibling, TreeCertificate};

/// Numbers in a text are below this.
const NUMBERS_END: u32 = 1_000_000_000;

fn is_number(number: u32) -> bool
    ensures { IsTrue result → IsNumber number }
{
    number < NUMBERS_END
}

/// Whether the number is that of a position.
fn is_named(hold: &Hold, number: usize) -> bool
    ensures { IsTrue result → IsNamed hold.now.positions number }
{
    number < hold.positions().len()
}

/// Whether each number of the set is that of a position.
fn is_spelled_set(hold: &Hold, set: PositionSet) -> bool
    ensures { IsTrue result → IsSpelledSet hold.now.positions set }
{
    match set.last() {
        Some(last) => usize::from(last) < hold.positions().len(),
        None => true,
    }
}

fn are_spelled_sets(hold: &Hold, sets: &[PositionSet]) -> bool
    ensures { IsTrue result → All (IsSpelledSet hold.now.positions) sets.now }
{
    sets.iter().all(|set| is_spelled_set(hold, *set))
}

fn is_position_priced(hold: &Hold, price: Price) -> bool
    ensures { IsTrue result → IsSpelledPrice (IsNamed hold.now.positions) price }
{
    is_named(hold, price.of as usize)
}

fn are_positions_priced(hold: &Hold, prices: &[Price]) -> bool
    ensures { IsTrue result → AreSpelledPrices (IsNamed hold.now.positions) prices.now }
{
    prices.iter().all(|price| is_position_priced(hold, *price))
}

fn is_number_priced(price: Price) -> bool
    ensures { IsTrue result → IsSpelledPrice IsNumber price }
{
    is_number(price.of)
}

fn are_numbers_priced(prices: &[Price]) -> bool
    ensures { IsTrue result → AreSpelledPrices IsNumber prices.now }
{
    prices.iter().all(|price| is_number_priced(*price))
}

fn is_spelled_list(hold: &Hold, list: &PriceList) -> bool
    ensures { IsTrue result → IsSpelledPriceList hold.now.positions (listed_prices list.now) }
{
    are_positions_priced(hold, list.positions.as_slice())
        && are_numbers_priced(list.limits.as_slice())
        && are_numbers_priced(list.cliques.as_slice())
}

fn are_spelled_lists(hold: &Hold, lists: &[PriceList]) -> bool
    ensures { IsTrue result → All (λ list. IsSpelledPriceList hold.now.positions (listed_prices list)) lists.now }
{
    lists.iter().all(|list| is_spelled_list(hold, list))
}

fn is_spelled_operation(hold: &Hold, operation: Operation) -> bool
    ensures { IsTrue result → IsSpelledOperation hold.now.positions operation }
{
    match operation {
        Operation::Leaf(list) => is_number(list),
        Operation::Residue => true,
        Operation::Narrow(list) => is_number(list),
        Operation::Split(_, names) => is_spelled_set(hold, names),
    }
}

fn are_spelled_operations(hold: &Hold, operations: &[Operation]) -> bool
    ensures { IsTrue result → All (IsSpelledOperation hold.now.positions) operations.now }
{
    operations
        .iter()
        .all(|operation| is_spelled_operation(hold, *operation))
}

/// Whether the position of a rank and a position is one.
fn is_spelled_least(hold: &Hold, least: (u8, u8)) -> bool
    ensures { IsTrue result → IsSpelledLeast hold.now.positions least }
{
    is_named(hold, usize::from(least.1))
}

fn is_spelled_sibling(hold: &Hold, sibling: &Sibling) -> bool
    ensures { IsTrue result → IsSpelledSibling hold.now.positions (listed_sibling sibling.now) }
{
    is_spelled_least(hold, (sibling.rank, sibling.position))
        && are_spelled_operations(hold, sibling.operations.as_slice())
}

fn are_spelled_siblings(hold: &Hold, siblings: &[Sibling]) -> bool
    ensures { IsTrue result → All (λ sibling. IsSpelledSibling hold.now.positions (listed_sibling sibling)) siblings.now }
{
    siblings
        .iter()
        .all(|sibling| is_spelled_sibling(hold, sibling))
}

/// Whether each part of a certificate can be spelled, if its claim can.
pub fn can_be_spelled(task: &Task, certificate: &TreeCertificate) -> bool
    ensures { IsTrue result → IsSpelledClaim task.now.hold.positions certificate.now.claim
        → IsSpelled task.now.hold.positions (listed_trees certificate.now) }
{
    let hold = task.hold();
    if !are_spelled_sets(hold, certificate.cliques.as_slice()) {
        return false;
    }
    if !are_spelled_lists(hold, certificate.prices.as_slice()) {
        return false;
    }
    if !are_spelled_operations(hold, certificate.root.as_slice()) {
        return false;
    }
    are_spelled_siblings(hold, certificate.siblings.as_slice())
}
