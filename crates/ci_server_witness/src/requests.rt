//! The requests of the witness: those of the worked examples.

ghost use Rattle.std.specs.Prelude.{◌≡◌, IfOk, codes};
ghost use Rattle.ci_machine_steps.specs.Prelude.{AddProject, AddRunner, SetFile, CreatePipeline, AskJob};
ghost use Rattle.ci_machine_laws.specs.Examples.{pipeline, token, new_runner};
ghost use Rattle.ci_server_witness.specs.Life.{new_file};

use ci_machine::records::{RefKind, Source};
use ci_machine::request::{NewFile, NewPipeline, NewRunner, PipelineVariables, Request};
use ci_machine::text::{Text, Texts};
use std::alloc::{AllocError, Global};

/// The token of the project.
const OWNER: &str = "p1-abababababababababababababababab";

/// The project `p` is to be made.
pub(crate) fn project(alloc: Global) -> Result<Request, AllocError>
    ensures { IfOk result (λ request. request ≡ AddProject (codes "p")) }
{
    Ok(Request::AddProject(Text::copy_of(alloc, "p")?))
}

/// The runner `r` of the instance is to be made, which has no tags and runs untagged jobs.
pub(crate) fn runner(alloc: Global) -> Result<Request, AllocError>
    ensures { IfOk result (λ request. request ≡ AddRunner new_runner) }
{
    Ok(Request::AddRunner(NewRunner {
        name: Text::copy_of(alloc, "r")?,
        project: None,
        tags: Texts::new(Vec::new(alloc)),
        untagged: true,
    }))
}

/// The first project is to have a file of the job `build`.
pub(crate) fn file(alloc: Global) -> Result<Request, AllocError>
    ensures { IfOk result (λ request. request ≡ SetFile new_file) }
{
    Ok(Request::SetFile(NewFile {
        project: 1,
        token: Text::copy_of(alloc, OWNER)?,
        text: Text::copy_of(alloc, "build:\n  stage: build\n  script: make\n")?,
    }))
}

/// A pipeline of `main` is to be made in the first project.
pub(crate) fn pipeline(alloc: Global) -> Result<Request, AllocError>
    ensures { IfOk result (λ request. request ≡ CreatePipeline pipeline) }
{
    let token = Text::copy_of(alloc, OWNER)?;
    let git_ref = Text::copy_of(alloc, "main")?;
    Ok(Request::CreatePipeline(NewPipeline {
        project: 1,
        token,
        git_ref,
        kind: RefKind::Branch,
        source: Source::Api,
        variables: PipelineVariables::new(Vec::new(alloc)),
    }))
}

/// The first runner asks for a job.
pub(crate) fn job_request(alloc: Global) -> Result<Request, AllocError>
    ensures { IfOk result (λ request. request ≡ AskJob token) }
{
    Ok(Request::AskJob(Text::copy_of(alloc, "r1-abababababababababababababababab")?))
}
