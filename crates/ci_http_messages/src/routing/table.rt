//! The code's table of routes: each path with its slots, and which routes it has.

ghost use Rattle.std.specs.Prelude.{◌≡◌, [], ◌∷◌, map};
ghost use Rattle.ci_http_messages.specs.Answers.{map_key, wanted};
ghost use Rattle.ci_http_messages.specs.Places.{listed, route_with, rows_of};

use crate::routing::operation::Operation;
use crate::routing::place::Numbers;
use ci_machine::reply::Method;
use ci_machine::request::Subject;

/// A path with its slots, whatever stands in them.
#[derive(Clone, Copy, Drop)]
pub(crate) enum Pattern {
    HealthCheck,
    Queue,
    AttemptTrace,
    Attempt,
    CiFile,
    JobAttemptTrace,
    JobAttempts,
    JobCancel,
    JobPlay,
    JobRetry,
    JobTrace,
    Job,
    PipelineCancel,
    PipelineJobs,
    Pipeline,
    Pipelines,
    Creation,
    ResourceGroup,
    ResourceGroups,
    Variable,
    Project,
}

/// The paths, in the router's order: by their bytes, but a word before a slot, and a longer path before one that it begins with.
pub(crate) const PATHS: [(&str, Pattern); 21] = [
    ("/-/health", Pattern::HealthCheck),
    ("/api/v4/jobs/request", Pattern::Queue),
    ("/api/v4/jobs/{n}/trace", Pattern::AttemptTrace),
    ("/api/v4/jobs/{n}", Pattern::Attempt),
    ("/api/v4/projects/{id}/ci_file", Pattern::CiFile),
    (
        "/api/v4/projects/{id}/jobs/{n}/attempts/{m}/trace",
        Pattern::JobAttemptTrace,
    ),
    (
        "/api/v4/projects/{id}/jobs/{n}/attempts",
        Pattern::JobAttempts,
    ),
    ("/api/v4/projects/{id}/jobs/{n}/cancel", Pattern::JobCancel),
    ("/api/v4/projects/{id}/jobs/{n}/play", Pattern::JobPlay),
    ("/api/v4/projects/{id}/jobs/{n}/retry", Pattern::JobRetry),
    ("/api/v4/projects/{id}/jobs/{n}/trace", Pattern::JobTrace),
    ("/api/v4/projects/{id}/jobs/{n}", Pattern::Job),
    (
        "/api/v4/projects/{id}/pipelines/{n}/cancel",
        Pattern::PipelineCancel,
    ),
    (
        "/api/v4/projects/{id}/pipelines/{n}/jobs",
        Pattern::PipelineJobs,
    ),
    ("/api/v4/projects/{id}/pipelines/{n}", Pattern::Pipeline),
    ("/api/v4/projects/{id}/pipelines", Pattern::Pipelines),
    ("/api/v4/projects/{id}/pipeline", Pattern::Creation),
    (
        "/api/v4/projects/{id}/resource_groups/{key}",
        Pattern::ResourceGroup,
    ),
    (
        "/api/v4/projects/{id}/resource_groups",
        Pattern::ResourceGroups,
    ),
    ("/api/v4/projects/{id}/variables/{key}", Pattern::Variable),
    ("/api/v4/projects/{id}", Pattern::Project),
];

/// A route of a path: its method, and what it asks for.
#[derive(Drop)]
pub(crate) struct Entry<K> {
    pub method: Method,
    pub operation: Operation<K>,
}

/// The routes of a path, one or two, in the order of their methods' names.
#[derive(Drop)]
pub(crate) struct Entries<K> {
    pub first: Entry<K>,
    pub second: Option<Entry<K>>,
}

/// The routes of a path, by the numbers in its slots and its key.
#[tactic(auto, unfolding(crate::specs::Routes::routes, crate::specs::Patterns::patterns))]
pub(crate) fn entries_of<'p>(pattern: Pattern, numbers: Numbers, key: &'p str) -> Entries<&'p str>
    ensures { listed (λ key. key.now) result ≡ map (route_with numbers key.now) (rows_of pattern) }
{
    let Numbers { id, n, m } = numbers;
    match pattern {
        Pattern::HealthCheck => one(Method::Get, Operation::Health),
        Pattern::Queue => one(Method::Post, Operation::AskJob),
        Pattern::AttemptTrace => one(Method::Patch, Operation::AppendTrace(n)),
        Pattern::Attempt => one(Method::Put, Operation::UpdateJob(n)),
        Pattern::CiFile => one(Method::Put, Operation::SetFile(id)),
        Pattern::JobAttemptTrace => read(id, Subject::Trace(n, m)),
        Pattern::JobAttempts => read(id, Subject::Attempts(n)),
        Pattern::JobCancel => one(Method::Post, Operation::CancelJob(id, n)),
        Pattern::JobPlay => one(Method::Post, Operation::Play(id, n)),
        Pattern::JobRetry => one(Method::Post, Operation::RetryJob(id, n)),
        Pattern::JobTrace => one(Method::Get, Operation::ShowTrace(id, n)),
        Pattern::Job => one(Method::Get, Operation::ShowJob(id, n)),
        Pattern::PipelineCancel => one(Method::Post, Operation::CancelPipeline(id, n)),
        Pattern::PipelineJobs => read(id, Subject::Jobs(n)),
        Pattern::Pipeline => one(Method::Get, Operation::ShowPipeline(id, n)),
        Pattern::Pipelines => read(id, Subject::Pipelines),
        Pattern::Creation => one(Method::Post, Operation::CreatePipeline(id)),
        Pattern::ResourceGroup => two(
            Method::Get,
            Operation::ShowMode(id, key),
            Method::Put,
            Operation::SetMode(id, key),
        ),
        Pattern::ResourceGroups => read(id, Subject::ResourceGroups),
        Pattern::Variable => two(
            Method::Delete,
            Operation::DeleteVariable(id, key),
            Method::Put,
            Operation::SetVariable(id, key),
        ),
        Pattern::Project => read(id, Subject::Project),
    }
}

// The one route of a path.
fn one<'p>(method: Method, operation: Operation<&'p str>) -> Entries<&'p str>
    ensures { listed (λ key. key.now) result ≡ (method, wanted (map_key (λ key. key.now) operation.entry)) ∷ [] }
{
    Entries {
        first: Entry { method, operation },
        second: None,
    }
}

// The one route of a path that tells what a project has.
fn read<'p>(id: u64, subject: Subject) -> Entries<&'p str>
    ensures { listed (λ key. key.now) result ≡ (Method.Get, wanted (Operation.Read id subject)) ∷ [] }
{
    one(Method::Get, Operation::Read(id, subject))
}

// The two routes of a path.
fn two<'p>(
    method: Method,
    operation: Operation<&'p str>,
    later: Method,
    other: Operation<&'p str>,
) -> Entries<&'p str>
    ensures { listed (λ key. key.now) result ≡
        (method, wanted (map_key (λ key. key.now) operation.entry)) ∷ (later, wanted (map_key (λ key. key.now) other.entry)) ∷ [] }
{
    Entries {
        first: Entry { method, operation },
        second: Some(Entry {
            method: later,
            operation: other,
        }),
    }
}
