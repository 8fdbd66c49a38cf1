// A room of two desks over an office, for three entries.
ghost use Rattle.std.specs.Prelude.{◌≡◌, [], IfSome, length};
ghost use Rattle.desk_lock.specs.Rooms.{AreSameDesks};
ghost use Rattle.flight_history.specs.Asking.{IsWithinLimits};

use crate::examples::office;
use base_words::NoMemory;
use desk_lock::{Desk, Full, Room};
use desk_service::Bench;
use editions::{Entry, Refusal, Reply, Request, What};
use flight_state::FlightKey;
use keeper::{Keeper, MemoryKeeper};
use std::alloc::Global;
use std::sync::Wait;
use std::test::Fail;

/// How many entries the room is for.
const ENTRIES: u64 = 3;

/// The key of a flight that there is not.
const KEY: &[u8] = b"XX210-13";

/// That flight is asked for.
fn request() -> Option<Request>
    ensures { IfSome result IsWithinLimits }
{
    let key = FlightKey::read(KEY)?;
    let what = What::State;
    Some(Request::Show { key, what })
}

/// What a call was answered, in a word.
fn word_of(answer: &Result<Reply, Full<Request>>) -> &'static str {
    match answer {
        Ok(Reply::Refused(Refusal::NoFlight)) => "no flight",
        Ok(_) => "other",
        Err(
            Full {
                request: Request::Show { key, .. },
            },
        ) if key.bytes() == KEY => "full",
        Err(_) => "another request",
    }
}

/// Calls so often, by the two desks in turn, and adds what each call was answered.
fn call_in_turn<Rt: Wait>(
    rt: &Rt,
    alloc: Global,
    desks: &mut [Desk<Bench<MemoryKeeper>>],
    count: usize,
    text: &mut String,
)
    requires { length desks.old ≡ 2 }
    ensures { AreSameDesks desks.old desks.new }
{
    for n in 0..count {
        let Some(request) = request() else {
            return;
        };
        let answer = desks[n % 2].call(rt, alloc, request);
        if write!(text, "|{}", word_of(&answer)).is_err() {
            return;
        }
    }
}

/// Adds the desk of each entry.
fn push_desks(text: &mut String, history: &[Entry]) -> Result<(), NoMemory> {
    for entry in history {
        write!(text, "|{}", entry.desk)?;
    }
    Ok(())
}

/// An office without flights, with room for three entries, as the machine of a room.
fn bench<K: Keeper + Drop>(alloc: Global, keeper: K) -> Option<Bench<K>>
    ensures unasked { IfSome result (λ bench. bench.books.history ≡ []) }
    ensures reserved { IfSome result (λ bench. bench.books.spare ≡ 3) }
{
    let (office, keeper) = office(alloc, keeper, 3).ok()?;
    Some(Bench::new(office, keeper))
}

/// What so many calls were answered, and whose the entries are that the closed room has.
fn told<Rt: Wait>(rt: &Rt, alloc: Global, count: usize) -> Option<String> {
    let mut text = String::new(alloc);
    let bench = bench(alloc, MemoryKeeper::new(alloc))?;
    let Ok((room, mut desks)) = Room::start(alloc, bench, 2, ENTRIES) else {
        return None;
    };
    call_in_turn(rt, alloc, desks.as_mut_slice(), count, &mut text);
    let (office, _) = room.close(desks).parts();
    let (_, history) = office.parts();
    push_desks(&mut text, &history).ok()?;
    Some(text)
}

#[test]
fn a_full_room_of_an_office_gives_requests_back(rt: HostRuntime) -> Result<(), Fail> {
    let text = told(&rt, rt.alloc(), 4).ok_or("memory")?;
    assert_eq!(rt; text.as_str(), "|no flight|no flight|no flight|full|1|2|1");
    Ok(())
}
