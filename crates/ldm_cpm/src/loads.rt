//! The compartments of a load message with their masses, and the seats behind them.

ghost use Rattle.std.specs.Prelude.{◌≡◌, ℕ, ◌++◌, ◌∷◌, [], List, Some, IfOk, IfSome, IfNone, IsSomeAnd};
ghost use Rattle.std.specs.List.{flat_map};
ghost use Rattle.mass_units.specs.declared.Kg.{Kg};
ghost use Rattle.telex.specs.Parts.{dot, slash};
ghost use Rattle.telex.specs.Elements.{said};
ghost use Rattle.ldm_cpm.specs.Messages.{total, load_elements, seat_elements, AreLoads};

use crate::numbers::number_after;
use base_words::NoMemory;
use mass_units::Kg;
use telex::{DOT, Part, SLASH};

/// The word before the number of adults and children.
const PASSENGERS: &[u8] = b"PAX";

/// The mass in all compartments, in kilograms.
pub fn total(loads: &[(u8, Kg)]) -> u128
    ensures { result ≡ total loads.now }
{
    let mut sum = 0;
    for load in loads {
        sum += u128::from(load.1.0);
    }
    sum
}

/// The compartment with its mass that two parts spell, if it is this one or a later one.
fn read_load(least: u8, compartment: &Part<'_>, mass: &Part<'_>) -> Option<(u8, Kg)>
    ensures some { IfSome result (λ load. AreLoads least (load ∷ [])
        × (said (compartment.now ∷ mass.now ∷ []) ≡ load_elements load)) }
    ensures read_back { (load : ℕ × Kg) → AreLoads least (load ∷ [])
        → said (compartment.now ∷ mass.now ∷ []) ≡ load_elements load → result ≡ Some load }
{
    let compartment = number_after(DOT, compartment)?;
    let mass = number_after(SLASH, mass)?;
    if compartment < u32::from(least) || compartment > 9 || mass == 0 {
        return None;
    }
    Some((compartment as u8, Kg(mass)))
}

/// Adds the compartments that the parts spell, from this one on, and gives the part after `PAX` behind them. None where the
/// parts spell no such compartments.
pub fn push_loads<'a>(
    loads: &mut Vec<(u8, Kg)>,
    least: u8,
    parts: &[Part<'a>],
) -> Result<Option<Part<'a>>, NoMemory>
    ensures some { IfOk result (λ r. IfSome r (λ seats. (more : List (ℕ × Kg))
        × (loads.new.items ≡ loads.old.items ++ more) × AreLoads least more
        × (said parts.now ≡ flat_map load_elements more ++ seat_elements seats.text.now))) }
    ensures read_back { IfOk result (λ r. (more : List (ℕ × Kg)) (seats : List ℕ) → AreLoads least more
        → said parts.now ≡ flat_map load_elements more ++ seat_elements seats
        → IsSomeAnd r (λ got. (got.text.now ≡ seats) × (loads.new.items ≡ loads.old.items ++ more))) }
{
    let [first, second, more @ ..] = parts else {
        return Ok(None);
    };
    if first.text == PASSENGERS {
        return Ok(seats_in(first, second, more));
    }
    let Some(load) = read_load(least, first, second) else {
        return Ok(None);
    };
    loads.push(load)?;
    push_loads(loads, load.0 + 1, more)
}

/// The part after `PAX`, where nothing follows it.
fn seats_in<'a>(pax: &Part<'_>, seats: &Part<'a>, more: &[Part<'a>]) -> Option<Part<'a>>
    ensures some { IfSome result (λ got. (pax.now.before ≡ dot) × (got.before ≡ slash) × (got ≡ seats.now)
        × (more.now ≡ [])) }
    ensures none { IfNone result (pax.now.before ≡ dot → seats.now.before ≡ slash → more.now ≡ [] → ⊥) }
{
    if pax.before == DOT && seats.before == SLASH && more.is_empty() {
        Some(*seats)
    } else {
        None
    }
}
