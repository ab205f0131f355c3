//! What is looked up once, before the first request: a store that remembers it has it at hand from then on.

ghost use Rattle.std.specs.Prelude.{◌≡◌, true};
ghost use Rattle.ci_store.specs.Prelude.{LoadsBy};
ghost use Rattle.ci_server_lookups.specs.Prelude.{HoldsKept};

use ci_machine::records::Runner;
use ci_machine::text::{Text, Texts};
use ci_server_lookups::searches::Searches;
use ci_store::fault::StoreFault;
use std::alloc::Global;

/// Looks up what a first poll does: which pipelines aren't finished, and which jobs are pending. They are searched as for a runner that is paused, so
/// nothing is found. Errors: the store's.
pub fn prepare<T: Searches>(alloc: Global, store: &mut T) -> Result<(), StoreFault>
    ensures { LoadsBy T.honest (HoldsKept T.holds) T.leaves store.old store.new result (λ k _. Unit {0}) }
{
    store.first_redundant(alloc)?;
    store.first_offer(alloc, &nobody(alloc))?;
    Ok(())
}

/// A runner that is given no job.
fn nobody(alloc: Global) -> Runner
    ensures { result.paused ≡ true }
{
    Runner {
        id: 0,
        name: Text::new(String::new(alloc)),
        token: Text::new(String::new(alloc)),
        project: None,
        tags: Texts::new(Vec::new(alloc)),
        untagged: false,
        paused: true,
    }
}
