//! The file in which an operator states the numbers of an aircraft: certified masses, envelopes, fuel
//! table, chord, average masses, cabin zones and hold. It is a TOML document.
//!
//! ```toml
//! registration = "DAIAB"
//! [dry]
//! mass = 42000
//! index = "50.00000"
//! [fuel]
//! rows = [[0, "0.00000"], [3000, "-0.01000"]]
//! ```
//!
//! A file is read exactly: the result is the aircraft that its text describes, or the one fault that
//! decides. Masses are whole kilograms, indices are texts with five decimals, lengths are millimetres.
#![tactic(auto)]

mod aircraft;
mod balance_forms;
mod fault;
mod figure_keys;
mod figures;
mod forms;
mod hold_forms;
mod laws;
mod loading_keys;
mod parts;
mod position_form;
mod reader;
mod section;
mod side_keys;
mod spelling;
mod texts;
mod values;

pub use aircraft::Aircraft;
pub use fault::FileFault;
pub use laws::{file_laws, index_laws};
pub use reader::read_aircraft;
pub use texts::{Registration, Version};
