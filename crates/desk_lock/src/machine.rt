//! What takes turns.

ghost use Rattle.std.specs.Prelude.{◌≡◌, ◌+◌, ◌<◌, ◌^◌, ℕ, List};
ghost use Rattle.desk_lock.specs.Histories.{IsTurn};

use std::alloc::Global;

/// A machine that desks call, one turn at a time. It keeps a history, to which each turn appends one entry.
///
/// It can be dropped, since a room that is never closed lets its machine go.
pub trait Machine: Drop {
    /// What a desk asks for.
    type Request;

    /// What a desk is answered.
    type Reply;

    /// What the history keeps of a turn.
    type Entry;

    /// What the machine is made with.
    type Setting;

    /// What no turn changes.
    ghost setting: { Self → Self.Setting };

    /// What stands between two moments of the machine, the earlier one first.
    ghost follows: { Self → Self → Type 0 };

    /// The entries of all turns, in order.
    ghost history: { Self → List Self.Entry };

    /// How many more entries there is room for.
    ghost spare: { Self → ℕ };

    /// The number of the desk that made an entry.
    ghost desk_of: { Self.Entry → ℕ };

    /// Whether a request may be made at all.
    ghost lawful: { Self.Request → Type 0 };

    /// Whether entry and reply are right, by the setting, the history before the turn, the desk's number and the
    /// request.
    ghost fits: { Self.Setting → List Self.Entry → ℕ → Self.Request → Self.Entry → Self.Reply → Type 0 };

    /// Takes one turn for the desk with this number.
    fn turn(&mut self, alloc: Global, desk: u32, request: Self::Request) -> Self::Reply
        requires spare { 0 < spare self.old }
        requires lawful { lawful request }
        ensures setting { setting self.new ≡ setting self.old }
        ensures follows { follows self.old self.new }
        ensures used { spare self.new + 1 ≡ spare self.old }
        ensures turn { IsTurn desk_of fits (setting self.old)
            (history self.old) (history self.new) desk request result };

    /// There is never room for 2^63 more entries, so that tickets can be counted.
    ghost few: { (m : Self) → spare m < 2 ^ 63 };

    ghost follows_itself: { (m : Self) → follows m m };

    ghost follows_on: { (first next last : Self) → follows first next → follows next last → follows first last };
}
