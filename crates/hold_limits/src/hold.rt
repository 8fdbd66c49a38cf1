ghost use Rattle.std.specs.Prelude.{◌≡◌, ◌≢◌, ◌==◌, ◌≤◌, ◌↔◌, ℕ, Bool, find, All, AllPairs, IfOk, IfErr, Some, None, IsTrue, length, option_copied};
ghost use Rattle.hold_parts.specs.Spellings.{IsName};
ghost use Rattle.hold_parts.specs.declared.parts.Position.{Position};
ghost use Rattle.hold_limits.specs.Layout.{layout_of, with_lateral, name_at};
ghost use Rattle.hold_limits.specs.Lateral.{sides_of, side_at, IsWithinLateral};
ghost use Rattle.hold_limits.specs.Faults.{IsWellSpelled, IsLawfulHold, hold_fault, side_fault};
ghost use Rattle.hold_limits.specs.Placement.{IsAccepted, Exclude, influence_at};
ghost use Rattle.hold_limits.specs.Enumeration.{is_accepted, exclude, is_within_lateral};

use crate::fault::HoldFault;
use crate::hold_faults::{fault_of_hold, fault_of_sides, is_pair_among};
use hold_parts::{Combined, Cumulative, Item, Lateral, Position, Same, are_same};
use std::alloc::AllocError;
use std::marker::Model;

/// A lawful hold: its positions from nose to tail, and the limits on them.
#[derive(Debug, Drop)]
pub struct Hold {
    positions: Vec<Position>,
    excludes: Vec<(u8, u8)>,
    combined: Vec<Combined>,
    cumulative: Vec<Cumulative>,
    lateral: Option<Lateral>,
}

impl Model for Hold {
    ghost use Rattle.hold_limits.specs.Layout.{Layout, layout_under};
    ghost use Rattle.hold_limits.specs.Faults.{IsLawfulHold};

    ghost Value = { Layout };

    ghost view = { λ h. layout_under h.lateral h.positions.items h.excludes.items h.combined.items h.cumulative.items };

    ghost invariant = { λ h. IsLawfulHold (layout_under h.lateral h.positions.items h.excludes.items h.combined.items h.cumulative.items) };
}

impl Clone for Hold {
    ghost is_clone = { λ hold copy. copy ≡ hold };

    fn clone(&self) -> Result<Hold, AllocError> {
        let alloc = *self.positions.allocator();
        Ok(Hold {
            positions: self.positions.as_slice().to_vec(alloc)?,
            excludes: self.excludes.as_slice().to_vec(alloc)?,
            combined: self.combined.as_slice().to_vec(alloc)?,
            cumulative: self.cumulative.as_slice().to_vec(alloc)?,
            lateral: self.lateral.clone()?,
        })
    }
}

/// The position with this number and its side, where it is listed.
fn listed_side(sides: &[(u8, bool)], number: u8) -> Option<(u8, bool)>
    ensures { result ≡ find (λ (side : ℕ × Bool). side.0 == number) sides.now }
{
    sides.iter().copied().find(|side| side.0 == number)
}

impl Hold {
    /// The hold with these parts. A position's number is its place in `positions`, from 0.
    ///
    /// Compartments have one digit, kinds are three capitals, and the greatest masses of combined and
    /// cumulative limits have at most nine digits; the rest is tested, and refused by its first fault.
    pub fn new(
        positions: Vec<Position>,
        excludes: Vec<(u8, u8)>,
        combined: Vec<Combined>,
        cumulative: Vec<Cumulative>,
    ) -> Result<Hold, HoldFault>
        requires { IsWellSpelled (layout_of positions.items excludes.items combined.items cumulative.items) }
        ensures made { IfOk result
            (λ hold. hold ≡ layout_of positions.items excludes.items combined.items cumulative.items) }
        ensures lawful { IfOk result (λ hold. hold_fault hold ≡ None) }
        ensures refused { IfErr result
            (λ fault. hold_fault (layout_of positions.items excludes.items combined.items cumulative.items) ≡ Some fault) }
    {
        match fault_of_hold(&positions, &excludes, &combined, &cumulative) {
            Some(fault) => Err(fault),
            None => Ok(Hold {
                positions,
                excludes,
                combined,
                cumulative,
                lateral: None,
            }),
        }
    }

    /// The same hold with this lateral limit, in place of one that it may have had. The limit is of at most nine
    /// digits. The sides are tested, and with a wrong one the hold is refused and dropped.
    pub fn with_lateral(self, lateral: Lateral) -> Result<Hold, HoldFault>
        requires { lateral.most.0 ≤ 999999999 }
        ensures made { IfOk result (λ hold. hold ≡ with_lateral self lateral) }
        ensures lawful { IfOk result (λ hold. hold_fault hold ≡ None) }
        ensures refused { IfErr result (λ fault. hold_fault (with_lateral self lateral) ≡ Some fault) }
        ensures side { IfErr result (λ fault. side_fault (with_lateral self lateral) ≡ Some fault) }
    {
        match fault_of_sides(&self.positions, lateral.sides.as_slice()) {
            Some(fault) => Err(fault),
            None => Ok(Hold {
                lateral: Some(lateral),
                ..self
            }),
        }
    }

    /// The positions, from nose to tail.
    pub fn positions(&self) -> &[Position]
        ensures value { result.now ≡ self.now.positions }
        ensures lawful { IsLawfulHold self.now }
    {
        self.positions.as_slice()
    }

    /// The positions, from nose to tail: at most 64, each with a name of its own.
    pub fn named_positions(&self) -> &[Position]
        ensures value { result.now ≡ self.now.positions }
        ensures few { length result.now ≤ 64 }
        ensures named { All (λ (q : Position). IsName q.name) result.now }
        ensures differ { AllPairs (λ (a b : Position). a.name ≢ b.name) result.now }
    {
        let positions = self.positions();
        // What is known of a name is known once it is read.
        for position in positions {
            let _name = position.name.bytes();
        }
        positions
    }

    /// The pairs of positions of which only one may be used.
    pub fn excludes(&self) -> &[(u8, u8)]
        ensures value { result.now ≡ self.now.excludes }
        ensures lawful { IsLawfulHold self.now }
    {
        self.excludes.as_slice()
    }

    /// The combined limits.
    pub fn combined(&self) -> &[Combined]
        ensures value { result.now ≡ self.now.combined }
        ensures lawful { IsLawfulHold self.now }
    {
        self.combined.as_slice()
    }

    /// The cumulative limits.
    pub fn cumulative(&self) -> &[Cumulative]
        ensures value { result.now ≡ self.now.cumulative }
        ensures lawful { IsLawfulHold self.now }
    {
        self.cumulative.as_slice()
    }

    /// The limit on the difference of the masses right and left, where the hold has one.
    pub fn lateral(&self) -> Option<&Lateral>
        ensures value { option_copied result ≡ self.now.lateral }
        ensures lawful { IsLawfulHold self.now }
    {
        self.lateral.as_ref()
    }

    /// The positions with their sides, which only a hold with a lateral limit has: a position's number, and whether
    /// it is on the right.
    pub fn sides(&self) -> &[(u8, bool)]
        ensures value { result.now ≡ sides_of self.now }
        ensures lawful { IsLawfulHold self.now }
    {
        match &self.lateral {
            Some(lateral) => lateral.sides.as_slice(),
            None => &[],
        }
    }

    /// How many positions it has. They are numbered from 0.
    pub fn position_count(&self) -> u8
        ensures value { result ≡ length self.now.positions }
        ensures few { result ≤ 64 }
        ensures lawful { IsLawfulHold self.now }
    {
        self.positions.len() as u8
    }

    /// Whether the number is that of a position which takes the container.
    pub fn accepts_at(&self, item: &Item, number: u8) -> bool
        ensures value { result ≡ is_accepted self.now (item.now, number) }
        ensures meaning { IsTrue result ↔ IsAccepted self.now (item.now, number) }
    {
        match self.positions.get(number as usize) {
            Some(position) => position.accepts(item),
            None => false,
        }
    }

    /// The influence of the position with this number, in ticks for each kilogram; 0 where the number is that
    /// of no position.
    pub fn influence_at(&self, number: u8) -> i32
        ensures { result ≡ influence_at self.now number }
    {
        self.positions
            .get(number as usize)
            .map_or(0, |position| position.influence)
    }

    /// The side of the position with this number: 1 on the right, -1 on the left, and 0 on neither, as it is for
    /// every position of a hold without a lateral limit.
    pub fn side_at(&self, number: u8) -> i32
        ensures { result ≡ side_at self.now number }
    {
        match listed_side(self.sides(), number) {
            Some((_, true)) => 1,
            Some((_, false)) => -1,
            None => 0,
        }
    }

    /// Whether a difference of the masses right and left, in kilograms, is within the lateral limit. A hold without
    /// one has nothing to keep.
    pub fn is_within_lateral(&self, difference: i64) -> bool
        ensures value { result ≡ is_within_lateral self.now difference }
        ensures meaning { IsTrue result ↔ IsWithinLateral self.now difference }
    {
        match &self.lateral {
            Some(lateral) => difference.unsigned_abs() <= u64::from(lateral.most.0),
            None => true,
        }
    }

    /// The name of the position with this number, and nothing where the number is that of no position.
    pub fn name_at(&self, number: u8) -> &[u8]
        ensures { result.now ≡ name_at self.now.positions number }
    {
        match self.positions.get(number as usize) {
            Some(position) => position.name.bytes(),
            None => b"",
        }
    }

    /// Whether the two positions are an excluding pair, in either order.
    pub fn exclude_each_other(&self, one: u8, other: u8) -> bool
        ensures value { result ≡ exclude self.now one other }
        ensures meaning { IsTrue result ↔ Exclude self.now one other }
    {
        is_pair_among(self.excludes(), one, other)
    }

    /// Whether all parts of the holds are the same.
    pub fn same(&self, other: &Hold) -> bool
        ensures { IsTrue result ↔ (self.now ≡ other.now) }
    {
        are_same(self.positions.as_slice(), other.positions.as_slice())
            && are_same(self.excludes.as_slice(), other.excludes.as_slice())
            && are_same(self.combined.as_slice(), other.combined.as_slice())
            && are_same(self.cumulative.as_slice(), other.cumulative.as_slice())
            && self.lateral.is_same(&other.lateral)
    }
}
