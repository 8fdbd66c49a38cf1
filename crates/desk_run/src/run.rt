//! One run of a desk.

ghost use Rattle.std.specs.Prelude.{◌≡◌, ◌≢◌, ◌≤◌, [], Err, IsOk, IfOk, IfErr, OnErr};
ghost use Rattle.base_words.specs.Faults.{Rose};
ghost use Rattle.desk_fleet.specs.Fleet.{names_of};
ghost use Rattle.desk_run.specs.Faults.{IsNotOpened};
ghost use Rattle.editions.specs.Books.{HasTables};
ghost use Rattle.desk_run.specs.Runs.{line, IsRunOf, IsServed};

use crate::fault::DeskFault;
use crate::opening::{OpenDesk, open_desk};
use desk_http::{ConnEnd, serve_connection};
use desk_serve::OfficeRun;
use desk_service::Solo;
use keeper::Keeper;
use load_io::{Joined, Shelf, Sink, Source};
use placer::Placing;
use std::alloc::Global;

/// An open desk serves one connection, from its beginning to its end.
fn serve<Rt, S: Source, O: Sink, K: Keeper, P: Placing>(
    rt: &Rt,
    alloc: Global,
    desk: OpenDesk,
    input: &mut S,
    out: &mut O,
    keeper: K,
    placing: &P,
) -> OfficeRun<Result<ConnEnd, DeskFault>, K, ()>
    requires tables { HasTables (K.tables keeper) desk.office }
    requires unasked { desk.office.history ≡ [] }
    ensures ended { IsOk result.ending }
    ensures served { IfOk result.ending (λ ending. IsServed desk.office (K.tables result.keeper) (K.faults keeper) (K.faults result.keeper)
        (line (S.left input.old) (O.content out.old) (S.faults input.old) (O.faults out.old))
        (line (S.left input.new) (O.content out.new) (S.faults input.new) (O.faults out.new))
        ending result.opening.items result.history.items) }
{
    let OpenDesk { office, mut tools } = desk;
    let mut solo = Solo::new(office, keeper);
    let mut link = Joined { input, out };
    let end = serve_connection(rt, alloc, &mut tools, &mut solo, &mut link, placing);
    let (office, keeper) = solo.parts();
    let (opening, history) = office.parts();
    OfficeRun {
        ending: Ok(end),
        keeper,
        doors: (),
        opening,
        history,
    }
}

/// Opens an office on the fleet of the files and on the rows that were kept, and serves one connection on the input and the output,
/// as desk 1. Nothing is written but the connection's answers.
pub fn run_desk<Rt, F: Shelf, S: Source, O: Sink, K: Keeper, P: Placing>(
    rt: &Rt,
    alloc: Global,
    names: &[String],
    shelf: &mut F,
    input: &mut S,
    out: &mut O,
    keeper: K,
    placing: &P,
) -> OfficeRun<Result<ConnEnd, DeskFault>, K, ()>
    ensures served { IfOk result.ending (λ ending. IsRunOf (F.files shelf.old) (names_of names.now) (K.tables keeper) (K.tables result.keeper)
        (K.faults keeper) (K.faults result.keeper)
        (line (S.left input.old) (O.content out.old) (S.faults input.old) (O.faults out.old))
        (line (S.left input.new) (O.content out.new) (S.faults input.new) (O.faults out.new))
        ending result.opening.items result.history.items) }
    ensures refused { IfErr result.ending (IsNotOpened (F.files shelf.old) (names_of names.now) (K.tables keeper)) }
    ensures empty { OnErr result.ending ((result.opening.items ≡ []) × (result.history.items ≡ [])) }
    ensures unserved { OnErr result.ending (line (S.left input.new) (O.content out.new) (S.faults input.new) (O.faults out.new)
        ≡ line (S.left input.old) (O.content out.old) (S.faults input.old) (O.faults out.old)) }
    ensures counted { result.ending ≡ Err DeskFault.Unread → Rose (F.faults shelf.old) (F.faults shelf.new) }
    ensures uncounted { result.ending ≢ Err DeskFault.Unread → F.faults shelf.new ≡ F.faults shelf.old }
    ensures same_files { F.files shelf.new ≡ F.files shelf.old }
    ensures same_tables { OnErr result.ending (K.tables result.keeper ≡ K.tables keeper) }
    ensures cause { result.ending ≡ Err DeskFault.Keeper → Rose (K.faults keeper) (K.faults result.keeper) }
    ensures same_count { IfErr result.ending (λ fault. fault ≢ DeskFault.Keeper → K.faults result.keeper ≡ K.faults keeper) }
    ensures never_falls { K.faults keeper ≤ K.faults result.keeper }
{
    let mut keeper = keeper;
    match open_desk(alloc, shelf, names, &mut keeper) {
        Ok(desk) => serve(rt, alloc, desk, input, out, keeper, placing),
        Err(fault) => OfficeRun::unopened(alloc, Err(fault), keeper, ()),
    }
}
