//! Lawful holds and the task of placing an offer of containers in one, as near to an ideal index as its limits
//! allow: which placements are sound, which indices they have, and which is the best.
#![tactic(auto)]

mod balance;
mod fault;
mod hold;
mod hold_faults;
mod laws;
mod moments;
mod order;
mod rising;
mod sound;
mod stowage;
mod task;
mod task_faults;

pub use arrayvec::ArrayVec;
pub use balance::{
    distance_from_ideal, hold_index_of, is_admissible, is_in_window, lateral_difference_of,
    lateral_of, outcome,
};
pub use fault::{HoldFault, TaskFault};
pub use hold::Hold;
pub use hold_parts::{
    Combined, Cumulative, Fit, Fits, Item, Lateral, Limit, Loose, Name, Places, Position, Sides,
    UldId, is_kind,
};
pub use laws::{lawful_bounds, placement_laws, twin_laws};
pub use moments::{Arm, moment_of};
pub use order::{branch_order, item_at};
pub use rising::is_rising;
pub use sound::{is_sound, stands_soundly};
pub use stowage::{Stowage, load_on, stowage_in, stowage_of};
pub use task::{Path, Task};
