//! One run of the program, from its arguments to its exit status.

ghost use Rattle.std.specs.Prelude.{◌≡◌, [], List, ℕ, vec_len};
ghost use Rattle.std.specs.Option.{option_copied};
ghost use Rattle.plan_commands.specs.Arguments.{arguments_of};
ghost use Rattle.plan_commands.specs.Commands.{AreCommand};
ghost use Rattle.plan_commands.specs.Run.{outside, ExitsWith};
ghost use Rattle.desk_run.specs.Runs.{line};
ghost use Rattle.loadctl.specs.Asked.{AskOne};
ghost use Rattle.loadctl.specs.Desk.{surroundings, Runs};
ghost use Rattle.loadctl.specs.Serve.{AreDoorsFor, RunsAtDoors};

use crate::asked::{Asked, AskedOne, asked_by};
use crate::desk::serve_desk;
use crate::ran::Ran;
use crate::serve::serve_office;
use desk_run::OfficeRun;
use keeper::Keeper;
use load_io::{Door, Shelf, Sink, Source};
use placer::Placing;
use plan_commands::{Command, run_command};
use std::alloc::Global;
use std::sync::Wait;
use std::thread::Threads;

/// Does what a command about a task, a load or a flight in transit asks, or says that the arguments are invalid where there is none.
fn run_task<F: Shelf, O: Sink, K: Keeper, P: Placing>(
    alloc: Global,
    command: Option<&Command<'_>>,
    shelf: &mut F,
    out: &mut O,
    keeper: K,
    placing: &P,
) -> OfficeRun<u8, K, ()>
    ensures exits { (arguments : List (List ℕ)) → AreCommand arguments (option_copied command.entry) → ExitsWith arguments
        (outside (F.files shelf.old) (F.faults shelf.old) (O.content out.old) (O.faults out.old))
        (outside (F.files shelf.new) (F.faults shelf.new) (O.content out.new) (O.faults out.new))
        result.ending }
    ensures keeper { result.keeper ≡ keeper }
    ensures unopened { result.opening.items ≡ [] }
    ensures unasked { result.history.items ≡ [] }
{
    let status = run_command(alloc, command, shelf, out, placing);
    OfficeRun::unopened(alloc, status, keeper, ())
}

/// Does what is asked that is at no door.
fn run_asked<Rt, F: Shelf, S: Source, O: Sink, K: Keeper, P: Placing>(
    rt: &Rt,
    alloc: Global,
    asked: &AskedOne<'_>,
    shelf: &mut F,
    input: &mut S,
    out: &mut O,
    keeper: K,
    placing: &P,
) -> OfficeRun<u8, K, ()>
    ensures { (arguments : List (List ℕ)) → AskOne arguments asked.now → Runs arguments
        (surroundings (F.files shelf.old) (F.faults shelf.old) (K.tables keeper) (K.faults keeper)
        (line (S.left input.old) (O.content out.old) (S.faults input.old) (O.faults out.old)))
        (surroundings (F.files shelf.new) (F.faults shelf.new) (K.tables result.keeper) (K.faults result.keeper)
        (line (S.left input.new) (O.content out.new) (S.faults input.new) (O.faults out.new)))
        result.ending result.opening.items result.history.items }
{
    match asked {
        AskedOne::Task(command) => run_task(alloc, Some(command), shelf, out, keeper, placing),
        AskedOne::Desk(desk) => {
            serve_desk(rt, alloc, desk.fleet, shelf, input, out, keeper, placing)
        }
        AskedOne::Nothing => run_task(alloc, None, shelf, out, keeper, placing),
    }
}

/// Does what the arguments ask for, if they ask for no doors. `words` are the arguments without the program's name. Nothing is
/// printed except on `out`, and only a desk reads the input and uses the keeper.
pub fn run_one<Rt, F: Shelf, S: Source, O: Sink, K: Keeper, P: Placing>(
    rt: &Rt,
    alloc: Global,
    words: &Vec<String>,
    shelf: &mut F,
    input: &mut S,
    out: &mut O,
    keeper: K,
    placing: &P,
) -> OfficeRun<u8, K, ()>
    ensures { Runs (arguments_of words.now.items)
        (surroundings (F.files shelf.old) (F.faults shelf.old) (K.tables keeper) (K.faults keeper)
        (line (S.left input.old) (O.content out.old) (S.faults input.old) (O.faults out.old)))
        (surroundings (F.files shelf.new) (F.faults shelf.new) (K.tables result.keeper) (K.faults result.keeper)
        (line (S.left input.new) (O.content out.new) (S.faults input.new) (O.faults out.new)))
        result.ending result.opening.items result.history.items }
{
    match asked_by(words.as_slice()) {
        Asked::One(asked) => run_asked(rt, alloc, &asked, shelf, input, out, keeper, placing),
        // Where doors are asked for, the arguments are none of a run without them.
        Asked::Serve(_) => run_task(alloc, None, shelf, out, keeper, placing),
    }
}

/// Does what the arguments ask for, as `run_one` does, or serves the doors, one for each desk that they ask for. It may wait
/// forever where there are doors, and only then.
pub fn run<
    Rt: Threads + Wait + Sync,
    F: Shelf,
    S: Source,
    O: Sink,
    K: Keeper + Send + Drop,
    D: Door + Send,
    P: Placing + Sync,
>(
    rt: &Rt,
    alloc: Global,
    words: &Vec<String>,
    shelf: &mut F,
    input: &mut S,
    out: &mut O,
    keeper: K,
    doors: Vec<D>,
    placing: &P,
) -> Ran<K, D>
    requires doors { AreDoorsFor (arguments_of words.now.items) (vec_len doors) }
    ensures { RunsAtDoors D.coming D.handed D.faults D.Link.left D.Link.content D.Link.read_faults D.Link.write_faults
        (arguments_of words.now.items)
        (surroundings (F.files shelf.old) (F.faults shelf.old) (K.tables keeper) (K.faults keeper)
        (line (S.left input.old) (O.content out.old) (S.faults input.old) (O.faults out.old)))
        (surroundings (F.files shelf.new) (F.faults shelf.new) (K.tables result.keeper) (K.faults result.keeper)
        (line (S.left input.new) (O.content out.new) (S.faults input.new) (O.faults out.new)))
        doors.items result.doors.items result.status result.opening.items result.history.items }
{
    match asked_by(words.as_slice()) {
        Asked::Serve(serve) => {
            serve_office(rt, alloc, serve.fleet, shelf, out, keeper, doors, placing)
        }
        Asked::One(asked) => {
            let OfficeRun {
                ending: status,
                keeper,
                opening,
                history,
                ..
            } = run_asked(rt, alloc, &asked, shelf, input, out, keeper, placing);
            Ran {
                status,
                keeper,
                doors,
                opening,
                history,
            }
        }
    }
}

#[cfg(test)]
mod tests;
