//! What the lines of a load over several sectors say.

use hold_limits::{Name, Task, UldId};
use problem_text::TextFault;

/// A container, and its last sector.
#[derive(Debug, Drop)]
pub struct Leave {
    pub id: UldId,
    pub sector: u8,
}

/// The task that the lines of a sector spell.
#[derive(Debug, Drop)]
pub enum Sector {
    Lawful(Task),
    /// A task with this fault.
    Faulty(TextFault),
}

/// What all lines say.
#[derive(Debug, Drop)]
pub struct Parts {
    pub leaves: Vec<Leave>,
    pub behind: Vec<(Name, Name)>,
    pub first: Sector,
    pub second: Sector,
    pub third: Option<Sector>,
}

/// The lawful tasks of two sectors or three.
#[derive(Debug, Drop)]
pub struct Tasks {
    pub first: Task,
    pub second: Task,
    pub third: Option<Task>,
}
