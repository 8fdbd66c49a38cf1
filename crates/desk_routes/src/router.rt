//! The router of the desk's paths.

ghost use Rattle.std.specs.Prelude.{◌≡◌, OnOk};
ghost use Rattle.desk_routes.specs.Paths.{added, desk_rows};
ghost use Rattle.desk_routes.specs.Targets.{route_found, route_of};

use crate::route::Route;
use base_words::NoMemory;
use matchit::Router;
use std::alloc::Global;
use std::str;

/// All routes. None is found for a path of another, so their order does not matter.
const ROUTES: [Route; 18] = [
    Route::Flights,
    Route::Flight,
    Route::Dry,
    Route::Fuel,
    Route::Limits,
    Route::Cabin,
    Route::Containers,
    Route::Loose,
    Route::Plan,
    Route::Best,
    Route::Task,
    Route::Release,
    Route::Late,
    Route::Reopen,
    Route::Depart,
    Route::Sheet,
    Route::Ldm,
    Route::Cpm,
];

/// Finds the routes of targets.
#[derive(Drop)]
pub struct DeskRouter {
    router: Router<Route>,
    ghost routes: { router ≡ desk_rows },
}

impl DeskRouter {
    /// The router. It takes all its memory here.
    pub fn new(alloc: Global) -> Result<DeskRouter, NoMemory> {
        let mut router = Router::new(alloc);
        for route in &ROUTES {
            add(&mut router, *route)?;
        }
        Ok(DeskRouter { router })
    }

    /// The route of a target. A target with a query has none.
    pub fn route(&self, target: &[u8]) -> Option<Route>
        ensures { result ≡ route_of target.now }
    {
        let Ok(path) = str::from_utf8(target) else {
            return None;
        };
        if target.contains(&b'?') {
            return None;
        }
        self.found(path)
    }

    /// The route that the path leads to.
    fn found(&self, path: &str) -> Option<Route>
        ensures { result ≡ route_found path.now }
    {
        let found = self.router.at(path).ok()?;
        Some(*found.value)
    }
}

/// Adds a route. That its path is one, and conflicts with no other, is tested when the router is made.
fn add(router: &mut Router<Route>, route: Route) -> Result<(), NoMemory>
    ensures { OnOk result (router.new ≡ added route router.old) }
{
    let Ok(()) = router.insert(route.path(), route) else {
        return Err(NoMemory);
    };
    Ok(())
}
