//! The whole program, from the arguments that the system gives it to its exit status.

ghost use Rattle.std.specs.Prelude.{◌≡◌, ◌≢◌, ◌+◌, ◌≤◌, [], drop, IfOk, IfErr, IfSome, IfNone, List, ℕ, length, vec_len};
ghost use Rattle.std.specs.IoError.{error_kind};
ghost use Rattle.std.specs.Vec.Iter.{into_iter_items};
ghost use Rattle.plan_commands.specs.Arguments.{arguments_of};
ghost use Rattle.desk_run.specs.Runs.{line};
ghost use Rattle.loadctl.specs.Desk.{surroundings};
ghost use Rattle.loadctl.specs.Serve.{ports_end, AreDoorsFor, KeepIn};
ghost use Rattle.loadctl.specs.Needs.{AreNeeded};
ghost use Rattle.loadctl.specs.Execute.{StandFrom, IsKeeperFor, AreDoorsOf, Executes};

use crate::needs::{Needs, WordFault};
use crate::objects::Objects;
use crate::program::run;
use crate::words::needs;
use base_words::NoMemory;
use load_io::{Shelf, Sink, Source};
use placer::Placing;
use plan_commands::arguments_from;
use std::alloc::Global;
use std::env::Args;
use std::io::{self, ErrorKind};
use std::sync::Wait;
use std::thread::Threads;

/// The exit status where memory ran out.
const NO_MEMORY: u8 = 9;

/// What a run with these arguments needs. Invalid ones need nothing.
fn needed_by(alloc: Global, words: &Vec<String>) -> Result<Needs, NoMemory>
    ensures { IfOk result (λ needed. AreNeeded (arguments_of words.now.items) needed.doors needed.port needed.store) }
{
    match needs(alloc, words) {
        Ok(needed) => Ok(needed),
        Err(WordFault::Usage) => Ok(Needs::NONE),
        Err(WordFault::NoMemory) => Err(NoMemory),
    }
}

/// The name of the file that keeps the rows, if one does.
fn store_name<'a>(words: &'a Vec<String>, needed: &Needs) -> Option<&'a str>
    requires { AreNeeded (arguments_of words.now.items) needed.now.doors needed.now.port needed.now.store }
    ensures some { IfSome result (λ name. KeepIn (arguments_of words.now.items) name.now) }
    ensures none { IfNone result ((file : List ℕ) → KeepIn (arguments_of words.now.items) file → ⊥) }
{
    let place = needed.store?;
    Some(words.get(place)?.as_str())
}

/// The keeper of the rows, where the arguments want them to be kept.
fn keeper_for<M: Objects>(
    alloc: Global,
    objects: &M,
    words: &Vec<String>,
    needed: &Needs,
) -> Result<M::Keeper, NoMemory>
    requires { AreNeeded (arguments_of words.now.items) needed.now.doors needed.now.port needed.now.store }
    ensures { IfOk result (λ keeper. IsKeeperFor M.keeps (arguments_of words.now.items) keeper) }
{
    match store_name(words, needed) {
        Some(name) => objects.keeper_in_file(alloc, name),
        None => Ok(objects.keeper_in_memory(alloc)),
    }
}

/// So many doors, at one port after another.
fn doors_from<M: Objects>(
    alloc: Global,
    objects: &M,
    port: u16,
    number: u8,
) -> Result<Vec<M::Door>, NoMemory>
    requires last { port + number ≤ ports_end }
    ensures number { IfOk result (λ doors. vec_len doors ≡ number) }
    ensures many { IfOk result (λ doors. length doors.items ≡ number) }
    ensures ports { IfOk result (λ doors. StandFrom M.stands_at port doors.items) }
{
    let mut doors = Vec::new(alloc);
    for place in 0..number {
        doors.push(objects.door(alloc, port + u16::from(place))?)?;
    }
    Ok(doors)
}

/// The keeper and the doors that the arguments name.
pub fn made_for<M: Objects>(
    alloc: Global,
    objects: &M,
    words: &Vec<String>,
) -> Result<(M::Keeper, Vec<M::Door>), NoMemory>
    ensures keeper { IfOk result (λ made. IsKeeperFor M.keeps (arguments_of words.now.items) made.0) }
    ensures doors { IfOk result (λ made. AreDoorsOf M.stands_at (arguments_of words.now.items) made.1.items) }
    ensures number { IfOk result (λ made. AreDoorsFor (arguments_of words.now.items) (vec_len made.1)) }
{
    let needed = needed_by(alloc, words)?;
    let keeper = keeper_for(alloc, objects, words, &needed)?;
    let doors = doors_from(alloc, objects, needed.port, needed.doors)?;
    Ok((keeper, doors))
}

/// Runs on these arguments, over what is made for them.
fn run_made<Rt: Threads + Wait + Sync, F: Shelf, S: Source, O: Sink, M: Objects, P: Placing + Sync>(
    rt: &Rt,
    alloc: Global,
    words: &Vec<String>,
    shelf: &mut F,
    input: &mut S,
    out: &mut O,
    objects: &M,
    placing: &P,
) -> u8
    ensures { Executes M.keeps M.stands_at M.Door.coming M.Door.handed M.Door.faults
        M.Door.Link.left M.Door.Link.content M.Door.Link.read_faults M.Door.Link.write_faults
        (arguments_of words.now.items)
        (λ keeper. surroundings (F.files shelf.old) (F.faults shelf.old) (M.Keeper.tables keeper) (M.Keeper.faults keeper)
        (line (S.left input.old) (O.content out.old) (S.faults input.old) (O.faults out.old)))
        (λ keeper. surroundings (F.files shelf.new) (F.faults shelf.new) (M.Keeper.tables keeper) (M.Keeper.faults keeper)
        (line (S.left input.new) (O.content out.new) (S.faults input.new) (O.faults out.new)))
        result }
{
    match made_for(alloc, objects, words) {
        Ok((keeper, doors)) => {
            let ran = run(rt, alloc, words, shelf, input, out, keeper, doors, placing);
            ran.status
        }
        Err(NoMemory) => NO_MEMORY,
    }
}

/// Runs on the arguments as `std::env::args` provides them, over what `objects` makes for them, and returns the exit status.
/// The first argument is the program's name. It may wait forever where there are doors, and only then.
pub fn execute<
    Rt: Threads + Wait + Sync,
    F: Shelf,
    S: Source,
    O: Sink,
    M: Objects,
    P: Placing + Sync,
>(
    rt: &Rt,
    alloc: Global,
    args: io::Result<Args>,
    shelf: &mut F,
    input: &mut S,
    out: &mut O,
    objects: &M,
    placing: &P,
) -> u8
    ensures runs { IfOk args (λ all. Executes M.keeps M.stands_at M.Door.coming M.Door.handed M.Door.faults
        M.Door.Link.left M.Door.Link.content M.Door.Link.read_faults M.Door.Link.write_faults
        (arguments_of (drop 1 (into_iter_items all)))
        (λ keeper. surroundings (F.files shelf.old) (F.faults shelf.old) (M.Keeper.tables keeper) (M.Keeper.faults keeper)
        (line (S.left input.old) (O.content out.old) (S.faults input.old) (O.faults out.old)))
        (λ keeper. surroundings (F.files shelf.new) (F.faults shelf.new) (M.Keeper.tables keeper) (M.Keeper.faults keeper)
        (line (S.left input.new) (O.content out.new) (S.faults input.new) (O.faults out.new)))
        result) }

    // Arguments that are not UTF-8 are as invalid as none.
    ensures not_text { IfErr args (λ error. error_kind error ≡ ErrorKind.InvalidData
        → Executes M.keeps M.stands_at M.Door.coming M.Door.handed M.Door.faults
        M.Door.Link.left M.Door.Link.content M.Door.Link.read_faults M.Door.Link.write_faults []
        (λ keeper. surroundings (F.files shelf.old) (F.faults shelf.old) (M.Keeper.tables keeper) (M.Keeper.faults keeper)
        (line (S.left input.old) (O.content out.old) (S.faults input.old) (O.faults out.old)))
        (λ keeper. surroundings (F.files shelf.new) (F.faults shelf.new) (M.Keeper.tables keeper) (M.Keeper.faults keeper)
        (line (S.left input.new) (O.content out.new) (S.faults input.new) (O.faults out.new)))
        result) }

    // Any other error is that memory ran out, and nothing changes.
    ensures no_memory { IfErr args (λ error. error_kind error ≢ ErrorKind.InvalidData → result ≡ 9) }
    ensures unchanged { IfErr args (λ error. error_kind error ≢ ErrorKind.InvalidData
        → (F.files shelf.new ≡ F.files shelf.old) × (F.faults shelf.new ≡ F.faults shelf.old)
        × (line (S.left input.new) (O.content out.new) (S.faults input.new) (O.faults out.new)
        ≡ line (S.left input.old) (O.content out.old) (S.faults input.old) (O.faults out.old))) }
{
    match arguments_from(alloc, args) {
        Ok(words) => run_made(rt, alloc, &words, shelf, input, out, objects, placing),
        Err(NoMemory) => NO_MEMORY,
    }
}

#[cfg(test)]
mod tests;
