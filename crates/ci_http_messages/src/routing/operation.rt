//! What routes ask for.

use ci_machine::request::Subject;

/// What a route asks the server to do, with what stands in its path: the numbers of records, and a
/// key of type `K`. Below the jobs of runners a number is that of an attempt. Below a project the
/// first number is the project's, and the second that of a job or a pipeline.
#[derive(Drop)]
pub enum Operation<K> {
    /// POST `/api/v4/jobs/request`: a runner asks for a job.
    AskJob,
    /// PUT `/api/v4/jobs/:n`: a runner says how an attempt stands.
    UpdateJob(u64),
    /// PATCH `/api/v4/jobs/:n/trace`: a runner sends the next bytes of a trace.
    AppendTrace(u64),
    /// PUT `/api/v4/projects/:id/ci_file`: the project's file is to be the body.
    SetFile(u64),
    /// PUT `/api/v4/projects/:id/variables/:key`: a variable is to have a value.
    SetVariable(u64, K),
    /// DELETE `/api/v4/projects/:id/variables/:key`: a variable is to go.
    DeleteVariable(u64, K),
    /// PUT `/api/v4/projects/:id/resource_groups/:key`: a resource group is to have a process mode.
    SetMode(u64, K),
    /// GET `/api/v4/projects/:id/resource_groups/:key`: a resource group's process mode is asked for.
    ShowMode(u64, K),
    /// POST `/api/v4/projects/:id/pipeline`: a pipeline is to be made.
    CreatePipeline(u64),
    /// GET `/api/v4/projects/:id/pipelines/:n`: a pipeline is asked for.
    ShowPipeline(u64, u64),
    /// POST `/api/v4/projects/:id/pipelines/:n/cancel`: a pipeline is to be cancelled.
    CancelPipeline(u64, u64),
    /// GET `/api/v4/projects/:id/jobs/:n`: a job is asked for.
    ShowJob(u64, u64),
    /// GET `/api/v4/projects/:id/jobs/:n/trace`: the trace of a job's last attempt is asked for.
    ShowTrace(u64, u64),
    /// POST `/api/v4/projects/:id/jobs/:n/play`: a manual job is to run.
    Play(u64, u64),
    /// POST `/api/v4/projects/:id/jobs/:n/cancel`: a job is to be cancelled.
    CancelJob(u64, u64),
    /// POST `/api/v4/projects/:id/jobs/:n/retry`: a job is to be tried again.
    RetryJob(u64, u64),
    /// GET `/api/v4/projects/:id`, or a path below it that tells what the project has: the subject says what.
    Read(u64, Subject),
    /// GET `/-/health`: is the server open?
    Health,
}
