//! The objects of this machine.

ghost use Rattle.std.specs.Prelude.{◌≡◌, ◌≢◌, [], drop, IfOk, IfErr};
ghost use Rattle.std.specs.IoError.{error_kind};
ghost use Rattle.std.specs.Vec.Iter.{into_iter_items};
ghost use Rattle.plan_commands.specs.Arguments.{arguments_of};
ghost use Rattle.desk_run.specs.Runs.{line};
ghost use Rattle.loadctl.specs.Desk.{surroundings};
ghost use Rattle.loadctl.specs.Stores.{IsStoreFor};
ghost use Rattle.loadctl.specs.Execute.{Executes};

use crate::execute::execute;
use crate::objects::Objects;
use crate::stores::RowStore;
use base_words::NoMemory;
use keeper::{Keeper, MemoryKeeper};
use load_io::{Door, Link, Shelf, Sink, Source, TcpDoor, TcpLink};
use placer::Placing;
use sqlite_keeper::{SqliteKeeper, StoreRuntime};
use std::alloc::Global;
use std::env::Args;
use std::io::{self, ErrorKind};
use std::net::{Net, TcpListener, TcpStream};
use std::sync::Wait;
use std::thread::Threads;
use std::time::Clock;

/// The objects of a runtime.
#[derive(Drop)]
pub struct System<Rt: Drop> {
    pub rt: Rt,
}

impl<
    Rt: StoreRuntime + Net<Listener = TcpListener, Stream = TcpStream> + Clock + Copy + Send + Drop,
> Objects for System<Rt>
where
    Rt::Rows: Send,
    Rt::Hold: Send,
{
    type Keeper = RowStore<SqliteKeeper<Rt>>;

    type Door = TcpDoor<Rt>;

    ghost keeps = { IsStoreFor (λ file name. file.path ≡ name) };

    ghost stands_at = { λ door port. door.port ≡ port };

    fn keeper_in_file(
        &self,
        alloc: Global,
        name: &str,
    ) -> Result<RowStore<SqliteKeeper<Rt>>, NoMemory> {
        let name = String::from_str(alloc, name)?;
        Ok(RowStore::InFile(SqliteKeeper::new(self.rt, name)))
    }

    fn keeper_in_memory(&self, alloc: Global) -> RowStore<SqliteKeeper<Rt>> {
        RowStore::InMemory(MemoryKeeper::new(alloc))
    }

    fn door(&self, _alloc: Global, port: u16) -> Result<TcpDoor<Rt>, NoMemory> {
        Ok(TcpDoor::new(self.rt, port))
    }
}

/// Runs on the arguments as `execute` does, over the objects of this runtime.
pub fn execute_on<
    Rt: Threads
        + Wait
        + Sync
        + StoreRuntime
        + Net<Listener = TcpListener, Stream = TcpStream>
        + Clock
        + Copy
        + Send
        + Drop,
    F: Shelf,
    S: Source,
    O: Sink,
    P: Placing + Sync,
>(
    rt: &Rt,
    alloc: Global,
    args: io::Result<Args>,
    shelf: &mut F,
    input: &mut S,
    out: &mut O,
    placing: &P,
) -> u8
where
    Rt::Rows: Send,
    Rt::Hold: Send,
    ensures runs { IfOk args (λ all. Executes ⟦<System<Rt> as Objects>⟧.keeps ⟦<System<Rt> as Objects>⟧.stands_at
        ⟦<TcpDoor<Rt> as Door>⟧.coming ⟦<TcpDoor<Rt> as Door>⟧.handed ⟦<TcpDoor<Rt> as Door>⟧.faults
        ⟦<TcpLink<TcpStream> as Link>⟧.left ⟦<TcpLink<TcpStream> as Link>⟧.content
        ⟦<TcpLink<TcpStream> as Link>⟧.read_faults ⟦<TcpLink<TcpStream> as Link>⟧.write_faults
        (arguments_of (drop 1 (into_iter_items all)))
        (λ keeper. surroundings (F.files shelf.old) (F.faults shelf.old)
        (⟦<RowStore<SqliteKeeper<Rt>> as Keeper>⟧.tables keeper) (⟦<RowStore<SqliteKeeper<Rt>> as Keeper>⟧.faults keeper)
        (line (S.left input.old) (O.content out.old) (S.faults input.old) (O.faults out.old)))
        (λ keeper. surroundings (F.files shelf.new) (F.faults shelf.new)
        (⟦<RowStore<SqliteKeeper<Rt>> as Keeper>⟧.tables keeper) (⟦<RowStore<SqliteKeeper<Rt>> as Keeper>⟧.faults keeper)
        (line (S.left input.new) (O.content out.new) (S.faults input.new) (O.faults out.new)))
        result) }

    // Arguments that are not UTF-8 are as invalid as none.
    ensures not_text { IfErr args (λ error. error_kind error ≡ ErrorKind.InvalidData
        → Executes ⟦<System<Rt> as Objects>⟧.keeps ⟦<System<Rt> as Objects>⟧.stands_at
        ⟦<TcpDoor<Rt> as Door>⟧.coming ⟦<TcpDoor<Rt> as Door>⟧.handed ⟦<TcpDoor<Rt> as Door>⟧.faults
        ⟦<TcpLink<TcpStream> as Link>⟧.left ⟦<TcpLink<TcpStream> as Link>⟧.content
        ⟦<TcpLink<TcpStream> as Link>⟧.read_faults ⟦<TcpLink<TcpStream> as Link>⟧.write_faults []
        (λ keeper. surroundings (F.files shelf.old) (F.faults shelf.old)
        (⟦<RowStore<SqliteKeeper<Rt>> as Keeper>⟧.tables keeper) (⟦<RowStore<SqliteKeeper<Rt>> as Keeper>⟧.faults keeper)
        (line (S.left input.old) (O.content out.old) (S.faults input.old) (O.faults out.old)))
        (λ keeper. surroundings (F.files shelf.new) (F.faults shelf.new)
        (⟦<RowStore<SqliteKeeper<Rt>> as Keeper>⟧.tables keeper) (⟦<RowStore<SqliteKeeper<Rt>> as Keeper>⟧.faults keeper)
        (line (S.left input.new) (O.content out.new) (S.faults input.new) (O.faults out.new)))
        result) }

    // Any other error is that memory ran out, and nothing changes.
    ensures no_memory { IfErr args (λ error. error_kind error ≢ ErrorKind.InvalidData → result ≡ 9) }
    ensures unchanged { IfErr args (λ error. error_kind error ≢ ErrorKind.InvalidData
        → (F.files shelf.new ≡ F.files shelf.old) × (F.faults shelf.new ≡ F.faults shelf.old)
        × (line (S.left input.new) (O.content out.new) (S.faults input.new) (O.faults out.new)
        ≡ line (S.left input.old) (O.content out.old) (S.faults input.old) (O.faults out.old))) }
{
    let system = System { rt: *rt };
    execute(rt, alloc, args, shelf, input, out, &system, placing)
}
