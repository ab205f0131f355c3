//! The requests that the command line sends.

use ci_cli_words::task::{AdminRequest, RunnerOptions};
use ci_machine::request::{NewRunner, Request};
use ci_machine::text::{Text, Texts};
use std::alloc::{AllocError, Global};

/// The request, as a server takes it. Errors: memory was refused.
pub fn request_of(alloc: Global, asked: AdminRequest<'_>) -> Result<Request, AllocError> {
    Ok(match asked {
        AdminRequest::AddProject(name) => Request::AddProject(Text::copy_of(alloc, name)?),
        AdminRequest::AddRunner(runner) => Request::AddRunner(new_runner(alloc, runner)?),
        AdminRequest::PauseRunner(pause) => Request::PauseRunner(pause),
    })
}

fn new_runner(alloc: Global, runner: RunnerOptions<'_>) -> Result<NewRunner, AllocError> {
    let tags = match runner.tags {
        Some(tags) => tags_in(alloc, tags)?,
        None => Texts::new(Vec::new(alloc)),
    };
    Ok(NewRunner {
        name: Text::copy_of(alloc, runner.name)?,
        project: runner.project,
        tags,
        untagged: runner.untagged,
    })
}

/// The texts between the commas.
fn tags_in(alloc: Global, tags: &str) -> Result<Texts, AllocError> {
    let mut texts = Vec::new(alloc);
    for tag in tags.split(',') {
        texts.push(Text::copy_of(alloc, tag)?)?;
    }
    Ok(Texts::new(texts))
}
