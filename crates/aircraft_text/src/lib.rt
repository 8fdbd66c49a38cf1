//! The text of an aircraft: the numbers of its file, line by line, to be held against the file and the operator's manual.
//!
//! ```text
//! AIRCRAFT DAIAB
//! version V12M156
//! dry mass 42000 index 50.00000
//! chord k 50.00000 c 1000 reference 20000 lemac 18850 mac 4193
//! limits ramp 79000 zero_fuel 64500 take_off 78500 landing 66500
//! tolerance mass 500 index 0.50000
//! trim low 45.00000 high 55.00000
//! averages adult 84 child 35 infant 0 bag 15
//! envelope zero_fuel forward 42000 30.00000 7.83
//! envelope zero_fuel aft 42000 70.00000 19.19
//! fuel 3000 -0.01000
//! zone 1 capacity 60 influence -123
//! position 1 11 compartment 1 influence -955 AKH 1134 PKC 1134
//! position 7 51 compartment 5 influence 980 bulk
//! exclude 13 31
//! combined 1500 11 12
//! forward 12 2000
//! left 11
//! lateral 1000
//! ```
//!
//! The labels are the keys of the file. Masses are in kilograms, indices have five decimals, and lengths are millimetres. A
//! line of an envelope has a corner's mass and index, and where the centre of gravity then lies in percent of the mean
//! aerodynamic chord, or `-` at no mass. Zones and positions are numbered from 1, in the order of the file.
//!
//! Beside it the notes: what in an aircraft is lawful, and yet hardly meant.
#![tactic(auto)]

mod balance_lines;
mod centre;
mod figure_lines;
mod hold_lines;
mod remarks;
mod words;
mod writer;

pub use remarks::{Note, Phase, notes};
pub use writer::write_aircraft;
