//! What happens to a server in the tests. What is named has the number 1: the project, the runner, the pipeline, the job and the attempt.

use ci_machine::moment::Moment;
use ci_machine::records::{RefKind, Source};
use ci_machine::request::{
    Event, JobQuery, JobUpdate, NewFile, NewPipeline, NewRunner, PipelineVariables, Report,
    Request, RunnerPause, Seed,
};
use ci_machine::text::{Text, Texts};
use std::alloc::{AllocError, Global};
use std::test::Fail;

/// The seed of each event, of which the tokens are made.
pub const SEED: Seed = Seed([0xab; 16]);

/// What happens to a server.
#[derive(Clone, Copy)]
pub enum Act {
    /// A project is made, of this name.
    AddProject(&'static str),
    /// A runner of the instance is made, of this name. It has no tags, and runs untagged jobs.
    AddRunner(&'static str),
    /// The runner is paused, or goes on.
    Pause(bool),
    /// The project gets this file.
    SetFile(&'static str),
    /// A pipeline of `main` is made in the project.
    CreatePipeline,
    /// The runner asks for a job.
    AskJob,
    /// The runner says how the attempt stands.
    Tell(Report),
    /// The job is looked at.
    Show,
    /// The job is cancelled.
    CancelJob,
    /// The job is tried again.
    RetryJob,
    /// A finished pipeline goes that was made before so many seconds.
    Prune(u64),
    Sweep,
}

/// The attempt runs.
pub const RUNNING: Act = Act::Tell(Report::Running);

/// It went well.
pub const SUCCESS: Act = Act::Tell(Report::Success(None));

/// A file of one job.
const ONE_JOB: &str = "build:\n  stage: build\n  script: make\n";

/// The first path: a project, a runner, a file of one job, a pipeline made of it, and its grant.
pub const PATH: [Act; 5] = [
    Act::AddProject("p"),
    Act::AddRunner("r"),
    Act::SetFile(ONE_JOB),
    Act::CreatePipeline,
    Act::AskJob,
];

/// A moment, in seconds.
fn at(seconds: u64) -> Result<Moment, Fail> {
    Ok(Moment::new(seconds).ok_or("no moment")?)
}

fn text(alloc: Global, text: &str) -> Result<Text, AllocError> {
    Text::copy_of(alloc, text)
}

/// The token of the project (`p`), the runner (`r`) or the attempt (`j`).
fn token(alloc: Global, letter: &str) -> Result<Text, AllocError> {
    let token = format!(in alloc; "{letter}1-abababababababababababababababab")?;
    text(alloc, token.as_str())
}

fn new_runner(alloc: Global, name: &str) -> Result<Request, AllocError> {
    Ok(Request::AddRunner(NewRunner {
        name: text(alloc, name)?,
        project: None,
        tags: Texts::new(Vec::new(alloc)),
        untagged: true,
    }))
}

fn new_file(alloc: Global, file: &str) -> Result<Request, AllocError> {
    Ok(Request::SetFile(NewFile {
        project: 1,
        token: token(alloc, "p")?,
        text: text(alloc, file)?,
    }))
}

fn new_pipeline(alloc: Global) -> Result<Request, AllocError> {
    Ok(Request::CreatePipeline(NewPipeline {
        project: 1,
        token: token(alloc, "p")?,
        git_ref: text(alloc, "main")?,
        kind: RefKind::Branch,
        source: Source::Api,
        variables: PipelineVariables::new(Vec::new(alloc)),
    }))
}

fn update(alloc: Global, report: Report) -> Result<Request, AllocError> {
    Ok(Request::UpdateJob(JobUpdate {
        attempt: 1,
        token: token(alloc, "j")?,
        report,
    }))
}

fn job(alloc: Global) -> Result<JobQuery, AllocError> {
    Ok(JobQuery {
        project: 1,
        token: token(alloc, "p")?,
        job: 1,
    })
}

/// The event of what happens.
fn event(alloc: Global, act: Act) -> Result<Event, Fail> {
    Ok(Event::Request(match act {
        Act::AddProject(name) => Request::AddProject(text(alloc, name)?),
        Act::AddRunner(name) => new_runner(alloc, name)?,
        Act::Pause(paused) => Request::PauseRunner(RunnerPause { runner: 1, paused }),
        Act::SetFile(file) => new_file(alloc, file)?,
        Act::CreatePipeline => new_pipeline(alloc)?,
        Act::AskJob => Request::AskJob(token(alloc, "r")?),
        Act::Tell(report) => update(alloc, report)?,
        Act::Show => Request::ShowJob(job(alloc)?),
        Act::CancelJob => Request::CancelJob(job(alloc)?),
        Act::RetryJob => Request::RetryJob(job(alloc)?),
        Act::Prune(before) => Request::PruneOne(at(before)?),
        Act::Sweep => return Ok(Event::Sweep),
    }))
}

/// The call of what happens, at a moment in seconds.
pub fn call(alloc: Global, seconds: u64, act: Act) -> Result<(Event, Moment, Seed), Fail> {
    Ok((event(alloc, act)?, at(seconds)?, SEED))
}
