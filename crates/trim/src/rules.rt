//! The rules of a flight, and which of them it breaks.

ghost use Rattle.std.specs.Prelude.{◌≡◌, ◌↔◌, not, length, filter, Contains, IsTrue, IfOk, IfErr};
ghost use Rattle.base_words.specs.Lists.{int_sum_by};
ghost use Rattle.hold_limits.specs.Faults.{IsLawfulHold};
ghost use Rattle.hold_limits.specs.Lateral.{IsWithinLateral};
ghost use Rattle.hold_limits.specs.Placement.{loose_lateral};
ghost use Rattle.mass_limits.specs.Masses.{CanBeWeighed};
ghost use Rattle.trim.specs.Limits.{KeepsLimits};
ghost use Rattle.trim.specs.Refusals.{IsUnweighed};
ghost use Rattle.trim.specs.Rules.{AreBroken, all_rules, rule_text};
ghost use Rattle.trim.specs.Verdicts.{is_kept_by, AreVerdicts};
ghost use Rattle.trim.specs.Weighed.{AreNear};

use crate::balance::{balance_of, hold_index_of};
use crate::fault::TrimFault;
use crate::figures::Figures;
use crate::weighing::{Weighed, weigh};
use aircraft_file::Aircraft;
use arrayvec::ArrayVec;
use hold_limits::{Arm, Hold, Path, Stowage, branch_order, moment_of, stands_soundly, stowage_of};
use mass_limits::{MassRule, broken};

/// A rule of a flight. The default only fills the unused slots of a list.
#[derive(Clone, Copy, Debug, Default, PartialEq, Eq)]
pub enum Rule {
    /// The ramp mass is at most the certified one.
    #[default]
    Ramp,
    /// The zero-fuel mass is at most the certified one.
    ZeroFuel,
    /// The take-off mass is at most the regulated one.
    TakeOff,
    /// The landing mass is at most the regulated one.
    Landing,
    /// No regulated mass is above the certified one.
    Regulated,
    /// The zero-fuel point is inside its envelope.
    ZeroFuelEnvelope,
    /// The take-off point is inside its envelope.
    TakeOffEnvelope,
    /// The landing point is inside its envelope.
    LandingEnvelope,
    /// The containers stand soundly in the hold, beside the loose loads.
    Hold,
    /// The lateral difference is within the limit of the hold.
    Lateral,
}

/// Rules of a flight, in the order of `Rule`.
pub type Rules = ArrayVec<Rule, 10>;

impl Rule {
    /// The rule as it is printed.
    pub fn text(self) -> &'static str
        ensures { result.now ≡ rule_text self }
    {
        match self {
            Rule::Ramp => "RAMP",
            Rule::ZeroFuel => "ZERO FUEL",
            Rule::TakeOff => "TAKE OFF",
            Rule::Landing => "LANDING",
            Rule::Regulated => "REGULATED",
            Rule::ZeroFuelEnvelope => "ZERO FUEL ENVELOPE",
            Rule::TakeOffEnvelope => "TAKE OFF ENVELOPE",
            Rule::LandingEnvelope => "LANDING ENVELOPE",
            Rule::Hold => "HOLD",
            Rule::Lateral => "LATERAL",
        }
    }
}

/// The rules that a flight breaks where its containers stand on the positions of a path, one for each in branch order.
///
/// It has an answer where `state_of` has one, and else the same fault. No memory is taken.
pub fn broken_rules(a: &Aircraft, f: &Figures, path: &Path) -> Result<Rules, TrimFault>
    requires limits { KeepsLimits f.now }
    requires complete { length path.now.items ≡ length f.now.containers }
    ensures broken { IfOk result (λ rules. AreBroken a.now f.now path.now.items rules.items) }
    ensures refused { IfErr result (IsUnweighed a.now f.now) }
{
    let flight = weigh(a, f)?;
    Ok(verdicts_on(a, f, path, &flight).broken())
}

/// Whether a flight keeps each of the rules.
#[derive(Clone, Copy)]
struct Verdicts {
    ramp: bool,
    zero_fuel: bool,
    take_off: bool,
    landing: bool,
    regulated: bool,
    zero_fuel_envelope: bool,
    take_off_envelope: bool,
    landing_envelope: bool,
    hold: bool,
    lateral: bool,
}

impl Verdicts {
    fn is_kept(&self, rule: Rule) -> bool
        ensures { result ≡ is_kept_by self.now rule }
    {
        match rule {
            Rule::Ramp => self.ramp,
            Rule::ZeroFuel => self.zero_fuel,
            Rule::TakeOff => self.take_off,
            Rule::Landing => self.landing,
            Rule::Regulated => self.regulated,
            Rule::ZeroFuelEnvelope => self.zero_fuel_envelope,
            Rule::TakeOffEnvelope => self.take_off_envelope,
            Rule::LandingEnvelope => self.landing_envelope,
            Rule::Hold => self.hold,
            Rule::Lateral => self.lateral,
        }
    }

    /// The broken rules, in the order of `Rule`.
    fn broken(&self) -> Rules
        ensures { result.items ≡ filter (λ rule. not (is_kept_by self.now rule)) all_rules }
    {
        let mut rules = ArrayVec::from([
            Rule::Ramp,
            Rule::ZeroFuel,
            Rule::TakeOff,
            Rule::Landing,
            Rule::Regulated,
            Rule::ZeroFuelEnvelope,
            Rule::TakeOffEnvelope,
            Rule::LandingEnvelope,
            Rule::Hold,
            Rule::Lateral,
        ]);
        rules.retain(|rule| !self.is_kept(*rule));
        rules
    }
}

/// The verdicts on a weighed flight.
fn verdicts_on(a: &Aircraft, f: &Figures, path: &Path, flight: &Weighed) -> Verdicts
    requires masses { CanBeWeighed flight.now.input }
    requires near { AreNear flight.now }
    requires complete { length path.now.items ≡ length f.now.containers }
    ensures { AreVerdicts a.now f.now.containers path.now.items flight.now result }
{
    let numbers = path.as_slice();
    let items = f.containers.as_slice();
    let order = branch_order(items);
    let stowage = stowage_of(items, order.as_slice(), numbers, flight.loose.as_slice());
    let hold = a.hold();
    let balance = balance_of(a, flight, hold_index_of(hold, &stowage));
    let found = broken(&flight.input, a.certified());
    let masses = found.as_slice();
    Verdicts {
        ramp: !is_listed(masses, MassRule::Ramp),
        zero_fuel: !is_listed(masses, MassRule::ZeroFuel),
        take_off: !is_listed(masses, MassRule::TakeOff),
        landing: !is_listed(masses, MassRule::Landing),
        regulated: !is_listed(masses, MassRule::RegulatedAboveCertified),
        zero_fuel_envelope: a
            .zero_fuel()
            .inside(balance.masses.zero_fuel, balance.zero_fuel),
        take_off_envelope: a
            .take_off()
            .inside(balance.masses.take_off, balance.take_off),
        landing_envelope: a.landing().inside(balance.masses.landing, balance.landing),
        hold: stands_soundly(hold, items, order.as_slice(), numbers, &stowage),
        lateral: keeps_lateral_limit(hold, &stowage),
    }
}

/// Whether the lateral difference of what is stowed is within the limit of the hold, if it has one.
fn keeps_lateral_limit(hold: &Hold, stowage: &Stowage) -> bool
    requires { IsLawfulHold hold.now }
    ensures { IsTrue result ↔ IsWithinLateral hold.now (int_sum_by (loose_lateral hold.now) stowage.now.items) }
{
    hold.is_within_lateral(moment_of(hold, Arm::Side, stowage.as_slice()))
}

fn is_listed(rules: &[MassRule], rule: MassRule) -> bool
    ensures { IsTrue result ↔ Contains rules.now rule }
{
    rules.contains(&rule)
}
