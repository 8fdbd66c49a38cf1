//! What the arguments of the program ask for.

ghost use Rattle.std.specs.Prelude.{◌≡◌, ◌≢◌, ◌+◌, ◌≤◌, ◌↔◌, IsTrue, IfSome, IfNone, List, ℕ, codes, length};
ghost use Rattle.mass_units.specs.Spelling.{number_text};
ghost use Rattle.plan_commands.specs.Arguments.{arguments_of};
ghost use Rattle.loadctl.specs.Desk.{most_aircraft, IsStoreName, AskForDesk};
ghost use Rattle.loadctl.specs.Serve.{most_desks, ports_end, AskForNoServe};
ghost use Rattle.loadctl.specs.Asked.{AskForDeskOver, AskForServeOver, Ask};

use mass_units::read_number;
use plan_commands::{Command, are_plain, command_of};

/// How many aircraft an office has at most.
const MOST_AIRCRAFT: usize = 64;

/// How many bytes the name of a store has at most.
const LONGEST_STORE: usize = 255;

/// How many desks an office has at most.
const MOST_DESKS: u8 = 8;

/// The number behind the last port.
const PORTS_END: u32 = 65_536;

/// `desk STORE AIRCRAFT ..`: an office of one desk, over one connection.
#[derive(Clone, Copy)]
pub struct AskedDesk<'a> {
    pub store: &'a str,
    /// The names of the aircraft's files.
    pub fleet: &'a [String],
}

/// `serve N PORT STORE AIRCRAFT ..`: an office of several desks, each at a port of its own.
#[derive(Clone, Copy)]
pub struct AskedServe<'a> {
    pub desks: u8,
    /// The port of the first desk.
    pub port: u16,
    pub store: &'a str,
    /// The names of the aircraft's files.
    pub fleet: &'a [String],
}

/// What arguments ask for that ask for no door.
#[derive(Clone, Copy)]
pub enum AskedOne<'a> {
    /// A command about one task, one load over several sectors, or one flight in transit.
    Task(Command<'a>),
    Desk(AskedDesk<'a>),
    /// The arguments are invalid.
    Nothing,
}

/// What the arguments ask for.
#[derive(Clone, Copy)]
pub enum Asked<'a> {
    /// A run at no door.
    One(AskedOne<'a>),
    Serve(AskedServe<'a>),
}

/// Whether the word names a store.
fn is_store_name(word: &str) -> bool
    ensures { IsTrue result ↔ IsStoreName word.now }
{
    (1..=LONGEST_STORE).contains(&word.len())
}

/// Whether these are the command and the store of an office.
fn open(command: &str, store: &str, name: &str) -> bool
    ensures { IsTrue result ↔ (command.now ≡ name.now) × IsStoreName store.now }
{
    command == name && is_store_name(store)
}

/// Whether so many files are those of a fleet.
fn are_fleet(names: &[String]) -> bool
    ensures { IsTrue result ↔ (1 ≤ length names.now) × (length names.now ≤ most_aircraft) }
{
    (1..=MOST_AIRCRAFT).contains(&names.len())
}

fn desk_of(arguments: &[String]) -> Option<AskedDesk<'_>>
    ensures some { IfSome result (λ desk. AskForDeskOver (arguments_of arguments.now) desk.store.now (arguments_of desk.fleet.now)) }
    ensures none { IfNone result ((names : List (List ℕ)) → AskForDesk (arguments_of arguments.now) names → ⊥) }
{
    let [command, store, fleet @ ..] = arguments else {
        return None;
    };
    let store = store.as_str();
    if !open(command.as_str(), store, "desk") {
        return None;
    }
    if !are_fleet(fleet) {
        return None;
    }
    if !are_plain(arguments) {
        return None;
    }
    Some(AskedDesk { store, fleet })
}

fn desks_from(argument: &str) -> Option<u8>
    ensures some { IfSome result (λ n. (argument.now ≡ number_text n) × (1 ≤ n) × (n ≤ most_desks)) }
    ensures none { IfNone result ((n : ℕ) → 1 ≤ n → n ≤ most_desks → argument.now ≡ number_text n → ⊥) }
{
    let number = read_number(argument.as_bytes())?;
    if number == 0 || number > u32::from(MOST_DESKS) {
        return None;
    }
    Some(number as u8)
}

/// The first of so many ports.
fn port_from(argument: &str, desks: u8) -> Option<u16>
    requires some_desks { 1 ≤ desks }
    requires few { desks ≤ most_desks }
    ensures some { IfSome result (λ n. (argument.now ≡ number_text n) × (1 ≤ n) × (n + desks ≤ ports_end)) }
    ensures none { IfNone result ((n : ℕ) → 1 ≤ n → n + desks ≤ ports_end → argument.now ≡ number_text n → ⊥) }
{
    let number = read_number(argument.as_bytes())?;
    if number == 0 || number > PORTS_END - u32::from(desks) {
        return None;
    }
    Some(number as u16)
}

fn serve_of(arguments: &[String]) -> Option<AskedServe<'_>>
    ensures some { IfSome result (λ serve. AskForServeOver (arguments_of arguments.now) serve.desks serve.port serve.store.now (arguments_of serve.fleet.now)) }
    ensures none { IfNone result (AskForNoServe (arguments_of arguments.now)) }
{
    let [command, desks, port, store, fleet @ ..] = arguments else {
        return None;
    };
    let store = store.as_str();
    if !open(command.as_str(), store, "serve") {
        return None;
    }
    if !are_fleet(fleet) {
        return None;
    }
    if !are_plain(arguments) {
        return None;
    }
    let desks = desks_from(desks.as_str())?;
    let port = port_from(port.as_str(), desks)?;
    Some(AskedServe {
        desks,
        port,
        store,
        fleet,
    })
}

/// What the arguments ask for.
pub fn asked_by(arguments: &[String]) -> Asked<'_>
    ensures { Ask (arguments_of arguments.now) result }
{
    if let Some(serve) = serve_of(arguments) {
        return Asked::Serve(serve);
    }
    if let Some(desk) = desk_of(arguments) {
        return Asked::One(AskedOne::Desk(desk));
    }
    match command_of(arguments) {
        Some(command) => Asked::One(AskedOne::Task(command)),
        None => Asked::One(AskedOne::Nothing),
    }
}
