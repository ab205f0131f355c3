//! What a request that sets a project's file does, from what the store holds.

ghost use Rattle.ci_machine_steps.specs.Files as machine;
ghost use Rattle.ci_machine_steps.specs.Prelude.{asked_project, project_with};
ghost use Rattle.ci_store.specs.Prelude.{LoadsBy};
ghost use Rattle.ci_server_lookups.specs.Prelude.{IsKept};
ghost use Rattle.ci_server_events.specs.Planning.{PlansFor};

use crate::planned::Planned;
use crate::projects::asked;
use ci_machine::reply::Reply;
use ci_machine::request::NewFile;
use ci_machine_pipelines::files;
use ci_store::fault::StoreFault;
use ci_store::store::Store;
use std::alloc::Global;

/// A project's file is to be a text. It is read only where the token is the project's.
pub(crate) fn set_file<T: Store>(
    alloc: Global,
    store: &mut T,
    new: NewFile,
) -> Result<Planned<Reply>, StoreFault>
    ensures { LoadsBy T.honest T.holds T.leaves store.old store.new result
        (λ k p. IsKept k → PlansFor k (machine.SetsFile (asked_project (project_with k.state new.token) new.project) new.text (p.answer, p.changes)) p) }
{
    let NewFile {
        project: named,
        token,
        text,
    } = new;
    let project = store.project_with(&token)?;
    match asked(&project, named) {
        Ok(found) => {
            let plan = files::set_file(alloc, found, text)?;
            Ok(Planned::of_records(alloc, plan))
        }
        Err(code) => Ok(Planned::refused(alloc, code)),
    }
}
