//! The masses of a flight, its underload, and the limits that it breaks.
//!
//! The masses build on one another as the FAA's Aircraft Weight and Balance Handbook
//! (FAA-H-8083-1B) has them: the dry operating mass with the traffic load is the zero-fuel mass,
//! with the take-off fuel the take-off mass, with the taxi fuel the ramp mass, and the take-off mass
//! less the trip fuel is the landing mass. A certified limit is the aircraft's own. A regulated limit
//! is that of the day, for this runway and this weather, and may be no higher.
//!
//! All masses are whole kilograms. Nothing here allocates.
#![tactic(auto)]

mod figures;
mod weighing;

pub use figures::{Certified, Limiting, MassInput, MassRule, Masses, Underload};
pub use weighing::{broken, masses, underload};
