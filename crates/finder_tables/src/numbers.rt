//! The numbers of a set of positions, one by one.

ghost use Rattle.std.specs.Prelude.{◌<◌, length, IfSome};
ghost use Rattle.std.specs.Iterator.{at_most};
ghost use Rattle.position_set.specs.Sets.{members};

use position_set::PositionSet;

/// The numbers of a set that are left, the least first.
#[derive(Drop)]
pub struct Numbers {
    rest: PositionSet,
}

impl Iterator for Numbers {
    type Item = u8;

    ghost remaining = { λ numbers. at_most (length (members numbers.rest)) };

    ghost next_gives = { λ _ number _. IfSome number (λ q. q < 64) };

    fn next(&mut self) -> Option<u8> {
        self.rest.take_first()
    }
}

/// The numbers of a set, the least first.
pub fn each_of(set: PositionSet) -> Numbers {
    Numbers { rest: set }
}

/// Whether a number is in a set; not where no set has it.
pub fn has(set: PositionSet, number: u8) -> bool {
    number < 64 && set.contains(number)
}

/// The set of one number; of none where no set has it.
pub fn one(number: u8) -> PositionSet {
    if number < 64 {
        PositionSet::of(number)
    } else {
        PositionSet::empty()
    }
}
