//! What the arguments name that is made before a run.

ghost use Rattle.std.specs.Prelude.{◌≡◌, ◌≢◌, Err, IsErr, IfOk, IfSome, IfNone, List, ℕ, codes};
ghost use Rattle.plan_commands.specs.Arguments.{arguments_of};
ghost use Rattle.loadctl.specs.Asked.{AskOne};
ghost use Rattle.loadctl.specs.Needs.{AskForNothing, AreNeeded};

use crate::asked::{Asked, AskedOne, asked_by};
use crate::needs::{Needs, WordFault};
use std::alloc::Global;

/// The place of the store's name among the arguments of a desk.
const STORE_OF_DESK: usize = 1;

/// The place of the store's name among the arguments of several desks.
const STORE_OF_DESKS: usize = 3;

/// The place of a store's name, if the store is a file.
fn place_of_file(store: &str, place: usize) -> Option<usize>
    ensures some { IfSome result (λ found. (found ≡ place) × (store.now ≢ codes ":memory:")) }
    ensures none { IfNone result (store.now ≡ codes ":memory:") }
{
    if store == ":memory:" {
        None
    } else {
        Some(place)
    }
}

/// What a run at no door needs, unless the arguments are invalid.
fn needs_of(one: &AskedOne<'_>) -> Result<Needs, WordFault>
    ensures needed { (arguments : List (List ℕ)) → AskOne arguments one.now
        → IfOk result (λ needed. AreNeeded arguments needed.doors needed.port needed.store) }
    ensures usage { (arguments : List (List ℕ)) → AskOne arguments one.now → result ≡ Err WordFault.Usage → AskForNothing arguments }
    ensures invalid { (arguments : List (List ℕ)) → AskOne arguments one.now → AskForNothing arguments → IsErr result }
    ensures no_memory { result ≢ Err WordFault.NoMemory }
{
    match one {
        AskedOne::Task(_) => Ok(Needs::NONE),
        AskedOne::Desk(desk) => Ok(Needs {
            doors: 0,
            port: 0,
            store: place_of_file(desk.store, STORE_OF_DESK),
        }),
        AskedOne::Nothing => Err(WordFault::Usage),
    }
}

/// What a run with these arguments needs.
pub fn needs(_alloc: Global, words: &Vec<String>) -> Result<Needs, WordFault>
    ensures needed { IfOk result (λ needed. AreNeeded (arguments_of words.now.items) needed.doors needed.port needed.store) }

    // Invalid arguments are said to be so.
    ensures usage { result ≡ Err WordFault.Usage → AskForNothing (arguments_of words.now.items) }
    ensures invalid { AskForNothing (arguments_of words.now.items) → IsErr result }

    // No memory is taken.
    ensures no_memory { result ≢ Err WordFault.NoMemory }
{
    match asked_by(words.as_slice()) {
        Asked::One(one) => needs_of(&one),
        Asked::Serve(serve) => Ok(Needs {
            doors: serve.desks,
            port: serve.port,
            store: place_of_file(serve.store, STORE_OF_DESKS),
        }),
    }
}

#[cfg(test)]
mod tests;
