//! The balance of a flight whose hold is planned.

ghost use Rattle.std.specs.Prelude.{◌≡◌, ◌≤◌, ◌+ℤ◌, unsigned_abs, length, find, Some, IfOk, IfErr};
ghost use Rattle.base_words.specs.Lists.{int_sum_by};
ghost use Rattle.hold_limits.specs.Faults.{IsLawfulHold};
ghost use Rattle.hold_limits.specs.Placement.{loose_moment};
ghost use Rattle.mass_limits.specs.Masses.{CanBeWeighed, masses_of};
ghost use Rattle.mass_limits.specs.Underload.{underload_of, is_least, limits};
ghost use Rattle.trim.specs.Limits.{KeepsLimits};
ghost use Rattle.trim.specs.Balance.{IsBalance};
ghost use Rattle.trim.specs.Refusals.{IsUnweighed};
ghost use Rattle.trim.specs.Weighed.{AreNear};

use crate::fault::TrimFault;
use crate::figures::Figures;
use crate::weighing::{Weighed, weigh};
use aircraft_file::Aircraft;
use hold_limits::{Arm, Hold, Path, Stowage, branch_order, moment_of, stowage_of};
use mass_limits::{Masses, Underload, masses, underload};
use mass_units::Ticks;

/// The masses, the underload and the indices of a flight.
#[derive(Clone, Copy, Debug, PartialEq, Eq)]
pub struct Balance {
    pub masses: Masses,
    pub underload: Underload,
    pub zero_fuel: Ticks,
    pub take_off: Ticks,
    pub landing: Ticks,
}

/// The balance of a flight whose containers stand on the positions of a path, one for each in branch order.
///
/// It is there where the fuel table has the fuel of take-off and of landing, the cabin has no fault, and each loose
/// load has a bulk position; else the first of these is the fault. No memory is taken.
pub fn state_of(a: &Aircraft, f: &Figures, path: &Path) -> Result<Balance, TrimFault>
    requires limits { KeepsLimits f.now }
    requires complete { length path.now.items ≡ length f.now.containers }
    ensures balance { IfOk result (IsBalance a.now f.now path.now.items) }
    ensures refused { IfErr result (IsUnweighed a.now f.now) }
{
    let flight = weigh(a, f)?;
    let numbers = path.as_slice();
    let items = f.containers.as_slice();
    let order = branch_order(items);
    let stowage = stowage_of(items, order.as_slice(), numbers, flight.loose.as_slice());
    let hold = hold_index_of(a.hold(), &stowage);
    Ok(balance_of(a, &flight, hold))
}

/// The hold index: mass times influence, summed over all that is stowed.
pub fn hold_index_of(hold: &Hold, stowage: &Stowage) -> Ticks
    requires lawful { IsLawfulHold hold.now }
    ensures value { result.0 ≡ int_sum_by (loose_moment hold.now) stowage.now.items }
    ensures bounded { unsigned_abs result.0 ≤ 100000000000000000 }
{
    Ticks(moment_of(hold, Arm::Influence, stowage.as_slice()))
}

/// The balance of a weighed flight with this hold index.
pub fn balance_of(a: &Aircraft, flight: &Weighed, hold: Ticks) -> Balance
    requires masses { CanBeWeighed flight.now.input }
    requires near { AreNear flight.now }
    requires hold { unsigned_abs hold.0 ≤ 100000000000000000 }
    ensures masses { result.masses ≡ masses_of flight.now.input }
    ensures underload { result.underload.kg ≡ underload_of flight.now.input a.now.certified }
    ensures limiting { find (is_least flight.now.input a.now.certified) limits ≡ Some result.underload.limiting }
    ensures zero_fuel { result.zero_fuel.0 ≡ flight.now.zero_fuel_base.0 +ℤ hold.0 }
    ensures take_off { result.take_off.0 ≡ flight.now.take_off_base.0 +ℤ hold.0 }
    ensures landing { result.landing.0 ≡ flight.now.landing_base.0 +ℤ hold.0 }
{
    Balance {
        masses: masses(&flight.input),
        underload: underload(&flight.input, a.certified()),
        zero_fuel: Ticks(flight.zero_fuel_base.0 + hold.0),
        take_off: Ticks(flight.take_off_base.0 + hold.0),
        landing: Ticks(flight.landing_base.0 + hold.0),
    }
}
