//! What a route wants by its body.

ghost use Rattle.std.specs.Prelude.{◌≡◌, None, Some, Err, IfOk};
ghost use Rattle.desk_bodies.specs.declared.fault.BodyFault.{BodyFault};
ghost use Rattle.desk_requests.specs.Asked.{Wants, bare};
ghost use Rattle.desk_requests.specs.Within.{IsWithin};

use desk_bodies::{
    BodyFault, read_budget, read_cabin, read_change, read_containers, read_dry, read_fuel,
    read_leg, read_limits, read_looks, read_loose,
};
use desk_routes::Route;
use flight_history::{FigurePart, What};
use flight_state::{Leg, Lmc};
use std::alloc::Global;

/// What a request wants, but for the flight and its edition.
#[derive(Debug, Drop)]
pub enum Wanted {
    /// A new flight.
    Open(Leg),
    /// The row or a document.
    Show(What),
    /// Another part of the figures.
    Set(FigurePart),
    /// A plan that looks at so many prefixes at most.
    Plan(u32),
    /// A plan by trees, whose search takes so many looks at most.
    Best(u32),
    /// The task that a plan is made for.
    Take,
    Release,
    Late(Lmc),
    Reopen,
    Depart,
}

/// What is wanted by a request that has no body.
fn bare(body: &[u8], wanted: Wanted) -> Result<Wanted, BodyFault>
    ensures some { IfOk result (λ it. bare body.now wanted ≡ Some it) }
    ensures none { result ≡ Err BodyFault.Form → bare body.now wanted ≡ None }
    ensures same { IfOk result (λ it. it ≡ wanted) }
{
    if !body.is_empty() {
        return Err(BodyFault::Form);
    }
    Ok(wanted)
}

/// What the route wants by this body.
pub fn read_wanted(alloc: Global, route: Route, body: &[u8]) -> Result<Wanted, BodyFault>
    ensures wants { IfOk result (λ it. Wants route body.now (Some it)) }
    ensures form { result ≡ Err BodyFault.Form → Wants route body.now None }
    ensures within { IfOk result IsWithin }
{
    match route {
        Route::Flights => Ok(Wanted::Open(read_leg(alloc, body)?)),
        Route::Flight => bare(body, Wanted::Show(What::State)),
        Route::Dry => Ok(Wanted::Set(FigurePart::Dry(read_dry(alloc, body)?))),
        Route::Fuel => Ok(Wanted::Set(FigurePart::Fuel(read_fuel(alloc, body)?))),
        Route::Limits => Ok(Wanted::Set(FigurePart::Limits(read_limits(alloc, body)?))),
        Route::Cabin => Ok(Wanted::Set(FigurePart::Cabin(read_cabin(alloc, body)?))),
        Route::Containers => Ok(Wanted::Set(FigurePart::Containers(read_containers(alloc, body)?))),
        Route::Loose => Ok(Wanted::Set(FigurePart::Loose(read_loose(alloc, body)?))),
        Route::Plan => Ok(Wanted::Plan(read_budget(alloc, body)?)),
        Route::Best => Ok(Wanted::Best(read_looks(alloc, body)?)),
        Route::Task => bare(body, Wanted::Take),
        Route::Release => bare(body, Wanted::Release),
        Route::Late => Ok(Wanted::Late(read_change(alloc, body)?)),
        Route::Reopen => bare(body, Wanted::Reopen),
        Route::Depart => bare(body, Wanted::Depart),
        Route::Sheet => bare(body, Wanted::Show(What::Sheet)),
        Route::Ldm => bare(body, Wanted::Show(What::Ldm)),
        Route::Cpm => bare(body, Wanted::Show(What::Cpm)),
    }
}
