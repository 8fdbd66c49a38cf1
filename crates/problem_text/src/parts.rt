use hold_limits::{Combined, Cumulative, Item, Lateral, Loose, Position};
use hold_parts::Indices;

/// The two forms of a task's text, by their first line.
#[derive(Clone, Copy, Debug, PartialEq, Eq)]
pub enum Version {
    /// Without a lateral limit.
    One,
    /// With one.
    Two,
}

/// What the lines between those of the positions and those of the indices say.
#[derive(Debug, Drop)]
pub struct Sections {
    pub excludes: Vec<(u8, u8)>,
    pub combined: Vec<Combined>,
    pub cumulative: Vec<Cumulative>,
    pub lateral: Option<Lateral>,
    pub items: Vec<Item>,
    pub loose: Vec<Loose>,
}

/// What the lines of a task say.
#[derive(Debug, Drop)]
pub struct Parts {
    pub positions: Vec<Position>,
    pub sections: Sections,
    pub indices: Indices,
}
