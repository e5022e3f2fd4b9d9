//! The routes of the HTTP server, and the router that finds them.
ghost use Rattle.std.specs.Prelude.{◌≡◌, [], IfOk, OnOk};
ghost use Rattle.office_http.specs.Messages.Routing.Routes.{Fits, add, routes};

use matchit::{InsertError, Router};
use std::alloc::{AllocError, Global};

/// The route of a request target.
#[derive(Clone, Copy, PartialEq, Eq, Drop)]
pub enum Route {
    Devices,
    List,
    Registers,
    Install,
    Exchange,
    Reset,
    Rescale,
    Manual,
    Close,
    Void,
    Days,
    Meter,
    Intervals,
    Poll,
}

impl Route {
    ghost use Rattle.office_http.specs.Messages.Routing.Targets.{is_question, method_of};

    /// Returns whether the route is a query (GET). All other routes are commands (POST), which
    /// change the store.
    pub fn is_question(self) -> bool
        ensures { result ≡ is_question self }
    {
        matches!(
            self,
            Route::Days | Route::Meter | Route::Intervals | Route::Poll
        )
    }

    /// Returns the HTTP method of the route: GET for a query, POST for a command.
    pub fn method(self) -> &'static [u8]
        ensures { result.now ≡ method_of self }
    {
        if self.is_question() { b"GET" } else { b"POST" }
    }
}

fn add(router: &mut Router<Route>, text: &str, route: Route) -> Result<(), AllocError>
    requires { Fits text.now router.old }
    ensures { OnOk result (router.new ≡ add text.now route router.old) }
{
    match router.insert(text, route) {
        Ok(()) => Ok(()),
        Err(InsertError::OutOfMemory) => Err(AllocError),
        Err(InsertError::Conflict { .. }) => unreachable!(),
        Err(InsertError::InvalidParamSegment) => unreachable!(),
        Err(InsertError::InvalidParam) => unreachable!(),
        Err(InsertError::InvalidCatchAll) => unreachable!(),
    }
}

// Adds all routes to an empty router. This function is separate from `router`, because the proof of
// a function that drops the router at each `?` takes a minute.
fn fill(router: &mut Router<Route>) -> Result<(), AllocError>
    requires { router.old ≡ [] }
    ensures { OnOk result (router.new ≡ routes) }
{
    add(router, "/devices", Route::Devices)?;
    add(router, "/devices/{name}/list", Route::List)?;
    add(router, "/registers", Route::Registers)?;
    add(router, "/registers/{name}/install", Route::Install)?;
    add(router, "/registers/{name}/exchange", Route::Exchange)?;
    add(router, "/registers/{name}/reset", Route::Reset)?;
    add(router, "/registers/{name}/rescale", Route::Rescale)?;
    add(router, "/registers/{name}/manual", Route::Manual)?;
    add(router, "/registers/{name}/close", Route::Close)?;
    add(router, "/registers/{name}/days", Route::Days)?;
    add(router, "/meters/{name}", Route::Meter)?;
    add(router, "/meters/{name}/intervals", Route::Intervals)?;
    add(router, "/meters/{name}/void", Route::Void)?;
    add(router, "/polls/{number}", Route::Poll)?;
    Ok(())
}

/// Makes the router with all routes of the HTTP server.
pub fn router(alloc: Global) -> Result<Router<Route>, AllocError>
    ensures { IfOk result (λ r. r ≡ routes) }
{
    let mut router = Router::new(alloc);
    fill(&mut router)?;
    Ok(router)
}
