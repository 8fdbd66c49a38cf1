//! The text of a loadsheet: what the crew of a flight signs for.
//!
//! ```text
//! LOADSHEET
//! XX210/12.DAIAB.FRA.ARN
//! EDNO 7
//! PAX 130/3
//! CABIN 10460
//! CONTAINERS 1800
//! LOOSE 320
//! TRAFFIC LOAD 12580
//! DRY OPERATING WEIGHT 42000
//! ZERO FUEL WEIGHT 54580 MAX 62500 L
//! TAKE OFF FUEL 9000
//! TAKE OFF WEIGHT 63580 MAX 73500
//! TRIP FUEL 6000
//! LANDING WEIGHT 57580 MAX 66000
//! UNDERLOAD 7920
//! DOI 50.00 LIZFW 51.66 LITOW 50.45 LILAW 51.65
//! MACZFW 25.79 MACTOW 25.23 MACLAW 25.74
//! END
//! ```
//!
//! All masses are in kilograms, and all are those with the late changes. ` L` stands behind the limit that leaves the least
//! room. The late changes themselves have a line each before `END`, as `LMC ZONE 2 5/0/0` (a zone, and how many adults,
//! children and infants more) and `LMC BULK 51 500/0` (a position, and by what mass and how many pieces more).
#![tactic(auto)]

mod line_writers;
mod sheet;

pub use sheet::write_sheet;
