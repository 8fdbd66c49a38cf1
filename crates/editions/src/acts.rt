//! What is written down of a request.

ghost use Rattle.std.specs.Prelude.{◌≡◌};
ghost use Rattle.editions.specs.Acts.{IsActWith, keeps_figures, key_asked};

use flight_history::{Act, Request, copy_of};
use flight_state::FlightKey;

/// The key of the flight that a request is about.
pub fn key_of(request: &Request) -> FlightKey
    ensures { result ≡ key_asked request.now }
{
    match request {
        Request::NewFlight { leg } => FlightKey::of(leg),
        Request::Set { key, .. } => *key,
        Request::Take { key, .. } => *key,
        Request::Install { key, .. } => *key,
        Request::InstallBest { key, .. } => *key,
        Request::Release { key, .. } => *key,
        Request::Late { key, .. } => *key,
        Request::Reopen { key, .. } => *key,
        Request::Depart { key, .. } => *key,
        Request::Show { key, .. } => *key,
    }
}

/// Whether the act leaves the effective figures of its flight, and so its task, as they are.
pub fn keeps_figures(act: &Act) -> bool
    ensures { result ≡ keeps_figures act.now }
{
    !matches!(
        act,
        Act::NewFlight { .. } | Act::Set { .. } | Act::Late { .. }
    )
}

/// What a request asked, where this says whether its plan is for the flight's effective figures.
pub fn act_of(request: Request, same: bool) -> Act
    ensures { IsActWith same request result }
{
    match request {
        Request::NewFlight { leg } => Act::NewFlight { leg },
        Request::Set { edition, part, .. } => Act::Set { edition, part },
        Request::Take { edition, .. } => Act::Take { edition },
        Request::Install { edition, plan, .. } => Act::Install {
            edition,
            path: copy_of(plan.path()),
            same,
        },
        Request::InstallBest { edition, plan, .. } => Act::Install {
            edition,
            path: copy_of(plan.path()),
            same,
        },
        Request::Release { edition, .. } => Act::Release { edition },
        Request::Late { edition, lmc, .. } => Act::Late { edition, lmc },
        Request::Reopen { edition, .. } => Act::Reopen { edition },
        Request::Depart { edition, .. } => Act::Depart { edition },
        Request::Show { what, .. } => Act::Show { what },
    }
}
