//! The routes, found by their paths.
ghost use Rattle.std.specs.Prelude.{◌≡◌, [], map, option_map, true, IfErr, IfOk};
ghost use Rattle.pid_http.specs.Api.Routes.{all_routes, paths, route_at, with_all};
ghost use Rattle.pid_http.specs.Api.Steps.Inserting.{all_new, paths_of, row_of};

use crate::api::route_table::{ROUTES, Route};
use matchit::{InsertError, Router};
use std::alloc::Global;

/// All the routes. A server makes them once, for all its streams.
#[derive(Drop)]
pub struct Routes {
    // What it finds is a place in the table.
    router: Router<usize>,
    ghost whole: { router ≡ with_all (paths all_routes) 0 [] },
}

// The table, in a function of its own: with anything else in its body it is dear to prove.
fn table() -> &'static [Route]
    ensures { map row_of result.now ≡ all_routes }
{
    ROUTES
}

// Inserts the places of rows one after another, up to one that is refused.
fn insert_all(router: &mut Router<usize>, rows: &[Route]) -> Result<(), InsertError>
    ensures inserted { IfOk result (λ _. router.new ≡ with_all (paths_of rows.now) 0 router.old) }
    ensures refused { all_new (paths_of rows.now) 0 router.old ≡ true
        → IfErr result (λ e. e ≡ InsertError.OutOfMemory) }
{
    for (place, row) in rows.iter().enumerate() {
        // Not `?`, which is dear to prove here, as below.
        match router.insert(row.0, place) {
            Ok(()) => {}
            Err(error) => return Err(error),
        }
    }
    Ok(())
}

impl Routes {
    /// All the routes.
    ///
    /// # Errors
    ///
    /// `OutOfMemory`, and no other.
    pub fn new(alloc: Global) -> Result<Routes, InsertError>
        ensures { IfErr result (λ e. e ≡ InsertError.OutOfMemory) }
    {
        let mut router = Router::new(alloc);
        match insert_all(&mut router, table()) {
            Ok(()) => Ok(Routes { router }),
            Err(error) => Err(error),
        }
    }

    // The route of a path.
    pub(crate) fn route_of(&self, path: &str) -> Option<&'static Route>
        ensures { option_map (λ route. row_of route.now) result ≡ route_at path.now }
    {
        match self.router.at(path) {
            Ok(found) => table().get(*found.value),
            Err(_) => None,
        }
    }
}
