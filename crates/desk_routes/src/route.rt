//! The routes of the desk.

ghost use Rattle.std.specs.Prelude.{◌≡◌, ◌↔◌};
ghost use Rattle.desk_routes.specs.Paths.{path_of};
ghost use Rattle.desk_routes.specs.Targets.{method_of};

use http::Method;

/// What a path asks for.
#[derive(Clone, Copy, Debug, PartialEq, Eq)]
pub enum Route {
    /// A new flight.
    Flights,
    /// A flight's row.
    Flight,
    /// The parts of a flight's figures.
    Dry,
    Fuel,
    Limits,
    Cabin,
    Containers,
    Loose,
    /// A plan of the hold.
    Plan,
    /// A plan of a full hold, which trees find.
    Best,
    /// The flight's task, which a plan is made for.
    Task,
    /// The release of a flight, and its loadsheet.
    Release,
    /// A late change.
    Late,
    /// The flight in work again.
    Reopen,
    Depart,
    /// The documents of a released flight.
    Sheet,
    Ldm,
    Cpm,
}

impl Route {
    /// The path, with `{key}` for the flight's key and `{edition}` for the edition that the desk knows.
    pub fn path(self) -> &'static str
        ensures { result.now ≡ path_of self }
    {
        match self {
            Route::Flights => "/flights",
            Route::Flight => "/flights/{key}",
            Route::Dry => "/flights/{key}/dry/{edition}",
            Route::Fuel => "/flights/{key}/fuel/{edition}",
            Route::Limits => "/flights/{key}/limits/{edition}",
            Route::Cabin => "/flights/{key}/cabin/{edition}",
            Route::Containers => "/flights/{key}/containers/{edition}",
            Route::Loose => "/flights/{key}/loose/{edition}",
            Route::Plan => "/flights/{key}/plan/{edition}",
            Route::Best => "/flights/{key}/best/{edition}",
            Route::Task => "/flights/{key}/task/{edition}",
            Route::Release => "/flights/{key}/release/{edition}",
            Route::Late => "/flights/{key}/lmc/{edition}",
            Route::Reopen => "/flights/{key}/reopen/{edition}",
            Route::Depart => "/flights/{key}/depart/{edition}",
            Route::Sheet => "/flights/{key}/sheet",
            Route::Ldm => "/flights/{key}/ldm",
            Route::Cpm => "/flights/{key}/cpm",
        }
    }

    /// The method that the route takes.
    pub fn method(self) -> Method
        ensures { result ≡ method_of self }
    {
        match self {
            Route::Flights
            | Route::Plan
            | Route::Best
            | Route::Release
            | Route::Late
            | Route::Reopen
            | Route::Depart => Method::POST,
            Route::Flight | Route::Task | Route::Sheet | Route::Ldm | Route::Cpm => Method::GET,
            Route::Dry
            | Route::Fuel
            | Route::Limits
            | Route::Cabin
            | Route::Containers
            | Route::Loose => Method::PUT,
        }
    }
}
