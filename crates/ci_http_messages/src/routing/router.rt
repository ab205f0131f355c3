//! The router of paths.

ghost use Rattle.std.specs.Prelude.{◌≡◌, [], IfOk};
ghost use Rattle.ci_http_messages.specs.Table.{table, with_path, with_paths, written, TakesPath, TakesPaths};

use crate::routing::table::{PATHS, Pattern};
use matchit::{InsertError, Router};
use std::alloc::{AllocError, Global};

/// The router of all paths. Errors: memory was refused.
#[tactic(auto, using(crate::proofs::Table::takes_all), unfolding(crate::specs::Table::table))]
pub(crate) fn router_of(alloc: Global) -> Result<Router<Pattern>, AllocError>
    ensures { IfOk result (λ router. router ≡ table) }
{
    let mut router = Router::new(alloc);
    add_each(&mut router, &PATHS)?;
    Ok(router)
}

// Adds these paths, one after the other. Errors: memory was refused.
fn add_each(router: &mut Router<Pattern>, paths: &[(&str, Pattern)]) -> Result<(), AllocError>
    requires { TakesPaths (written paths.now) router.old }
    ensures { IfOk result (λ _. router.new ≡ with_paths (written paths.now) router.old) }
{
    for entry in paths {
        add(router, entry.0, entry.1)?;
    }
    Ok(())
}

// The router with one path more. Errors: memory was refused, and it is as it was.
fn add(router: &mut Router<Pattern>, path: &str, pattern: Pattern) -> Result<(), AllocError>
    requires { TakesPath path.now router.old }
    ensures { IfOk result (λ _. router.new ≡ with_path path.now pattern router.old) }
{
    match router.insert(path, pattern) {
        Ok(()) => Ok(()),
        Err(InsertError::OutOfMemory) => Err(AllocError),
        Err(_) => unreachable!(),
    }
}
