//! The passengers of a cabin.

use crate::figures::ZoneCount;
use base_words::ListOf;

/// The passengers of a cabin: a count for each zone, from zone 1 on.
pub type Cabin = ListOf<ZoneCount>;
