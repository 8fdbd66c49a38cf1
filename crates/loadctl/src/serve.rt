//! The office of several desks, each at a door of its own.

ghost use Rattle.std.specs.Prelude.{◌≡◌, ◌<◌, ◌≤◌, IfOk, IfErr, OnOk, List, ℕ, Option, vec_len};
ghost use Rattle.desk_run.specs.Runs.{line};
ghost use Rattle.plan_commands.specs.Arguments.{arguments_of};
ghost use Rattle.loadctl.specs.Desk.{surroundings, IsReported};
ghost use Rattle.loadctl.specs.Serve.{status_of_doors, EndsServe};

use crate::desk::report;
use crate::ran::Ran;
use desk_run::{DeskFault, DoorsEnd, OfficeRun, run_doors};
use keeper::Keeper;
use load_io::{Door, Shelf, Sink};
use placer::Placing;
use std::alloc::Global;
use std::sync::Wait;
use std::thread::Threads;

/// The exit status of a run of several desks. Where their office was not opened, prints why.
fn status_of<O: Sink>(alloc: Global, ending: Result<DoorsEnd, DeskFault>, out: &mut O) -> u8
    ensures served { IfOk ending (λ end. result ≡ status_of_doors end) }
    ensures unchanged { OnOk ending ((O.content out.new ≡ O.content out.old) × (O.faults out.new ≡ O.faults out.old)) }
    ensures reported { IfErr ending (λ fault. IsReported fault (O.content out.old) (O.content out.new) (O.faults out.old) (O.faults out.new) result) }
{
    match ending {
        Ok(DoorsEnd::Closed) => 0,
        Ok(DoorsEnd::Failed) => 11,
        Err(fault) => report(alloc, &fault, out),
    }
}

/// Opens an office with the aircraft in these files, on the rows that were kept, and serves the doors, each by a desk of its
/// own. It may wait forever.
pub fn serve_office<
    Rt: Threads + Wait + Sync,
    F: Shelf,
    O: Sink,
    K: Keeper + Send + Drop,
    D: Door + Send,
    P: Placing + Sync,
>(
    rt: &Rt,
    alloc: Global,
    names: &[String],
    shelf: &mut F,
    out: &mut O,
    keeper: K,
    doors: Vec<D>,
    placing: &P,
) -> Ran<K, D>
    requires doors { (0 < vec_len doors) × (vec_len doors ≤ 8) }

    // Whatever the input is: it is not read.
    ensures ends { (left : Option (List ℕ)) (reads : ℕ) → EndsServe D.coming D.handed D.faults
        D.Link.left D.Link.content D.Link.read_faults D.Link.write_faults (arguments_of names.now)
        (surroundings (F.files shelf.old) (F.faults shelf.old) (K.tables keeper) (K.faults keeper)
        (line left (O.content out.old) reads (O.faults out.old)))
        (surroundings (F.files shelf.new) (F.faults shelf.new) (K.tables result.keeper) (K.faults result.keeper)
        (line left (O.content out.new) reads (O.faults out.new)))
        doors.items result.doors.items result.opening.items result.history.items result.status }
    ensures same_files { F.files shelf.new ≡ F.files shelf.old }
    ensures never_falls { K.faults keeper ≤ K.faults result.keeper }
{
    let OfficeRun {
        ending,
        keeper,
        doors,
        opening,
        history,
    } = run_doors(rt, alloc, names, shelf, keeper, doors, placing);
    let status = status_of(alloc, ending, out);
    Ran {
        status,
        keeper,
        doors,
        opening,
        history,
    }
}

#[cfg(test)]
mod tests;
