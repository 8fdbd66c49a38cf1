//! The loading task of a flight.

ghost use Rattle.std.specs.Prelude.{◌≡◌, ◌↔◌, ℕ, List, Err, IfOk, IfErr};
ghost use Rattle.hold_limits.specs.Faults.{IsLawful};
ghost use Rattle.hold_limits.specs.Placement.{IsAdmissible, take_off_index};
ghost use Rattle.trim.specs.Limits.{KeepsLimits};
ghost use Rattle.trim.specs.Balance.{IsTakeOffIndex};
ghost use Rattle.trim.specs.Points.{IsFlightAdmissible};
ghost use Rattle.trim.specs.Refusals.{IsTaskOf, IsRefused};

use crate::fault::TrimFault;
use crate::figures::Figures;
use crate::weighing::weigh;
use crate::window::window_of;
use aircraft_file::Aircraft;
use base_words::NoMemory;
use hold_limits::{Hold, Item, Loose, Task};
use std::alloc::Global;

/// The task of placing a flight's containers in the hold of its aircraft, where all three envelopes are kept.
///
/// The containers and the loose loads are those of the figures. The base is the take-off index without what the hold
/// adds, and the window for the hold index is the common part of what the three envelopes leave. So a path is
/// admissible for the task exactly where it is for the flight, and has the same take-off index.
///
/// Refused for the first reason in the order of `TrimFault`. Where an envelope has no index at the mass of the flight,
/// no path is admissible for the flight.
pub fn task_of(alloc: Global, a: &Aircraft, f: &Figures) -> Result<Task, TrimFault>
    requires { KeepsLimits f.now }
    ensures task { IfOk result (IsTaskOf a.now f.now) }
    ensures lawful { IfOk result (λ task. IsLawful task) }
    ensures admissible { IfOk result (λ task. (path : List ℕ)
        → IsAdmissible task path ↔ IsFlightAdmissible a.now f.now path) }
    ensures index { IfOk result (λ task. (path : List ℕ)
        → IsTakeOffIndex a.now f.now path (take_off_index task path)) }
    ensures refused { IfErr result (IsRefused a.now f.now) }
    ensures no_window { (which : ℕ) (path : List ℕ)
        → result ≡ Err (TrimFault.NoWindow which) → ¬ (IsFlightAdmissible a.now f.now path) }
{
    let flight = weigh(a, f)?;
    let window = window_of(a, &flight)?;
    let parts = match parts_of(alloc, a, f, flight.loose.as_slice()) {
        Ok(parts) => parts,
        Err(_) => return Err(TrimFault::NoMemory),
    };
    match Task::new(
        parts.hold,
        parts.items,
        parts.loose,
        flight.take_off_base,
        window.low,
        window.high,
        a.ideal_low(),
        a.ideal_high(),
    ) {
        Ok(task) => Ok(task),
        Err(fault) => Err(TrimFault::Task(fault)),
    }
}

/// The parts of a task that take memory.
#[derive(Drop)]
struct Parts {
    hold: Hold,
    items: Vec<Item>,
    loose: Vec<Loose>,
}

/// The hold of the aircraft, the containers of the figures, and these loose loads.
fn parts_of(alloc: Global, a: &Aircraft, f: &Figures, loose: &[Loose]) -> Result<Parts, NoMemory>
    ensures hold { IfOk result (λ parts. parts.hold ≡ a.now.hold) }
    ensures items { IfOk result (λ parts. parts.items.items ≡ f.now.containers) }
    ensures loose { IfOk result (λ parts. parts.loose.items ≡ loose.now) }
{
    Ok(Parts {
        hold: a.hold().clone()?,
        items: f.containers.as_slice().to_vec(alloc)?,
        loose: loose.to_vec(alloc)?,
    })
}
