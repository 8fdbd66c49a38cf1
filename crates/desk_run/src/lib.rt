//! One run of a desk: the office is opened on the files of its fleet and on the rows that were kept, and then one connection is
//! served to its end, or several desks serve doors.
#![tactic(auto)]

mod doors;
mod fault;
mod opening;
mod run;

pub use desk_http::ConnEnd;
pub use desk_serve::{DoorsEnd, OfficeRun};
pub use doors::run_doors;
pub use fault::DeskFault;
pub use run::run_desk;
