//! What can be changed.

use mass_units::{Kg, Ticks};

/// One thing to change in a loading task. Places are counted from 0.
#[derive(Clone, Copy, Debug, PartialEq, Eq)]
pub enum Change {
    /// The excluding pair at this place goes.
    DropExclude(usize),
    /// The combined limit at this place has this greatest mass, in kilograms.
    Combined(usize, Kg),
    /// The cumulative limit at this place has this greatest mass.
    Cumulative(usize, Kg),
    /// The lateral limit is this.
    Lateral(Kg),
    /// The least hold index of the window is this.
    Low(Ticks),
    /// The greatest hold index of the window is this.
    High(Ticks),
    /// The container at this place of the offer stays behind.
    LeaveItem(usize),
}
