//! What a server is to answer.

use crate::server::acts::Act;
use ci_machine::records::Cause;
use ci_machine::reply::{Answer, Code, HttpStatus, JobStatus, Reply, Swept};
use ci_machine::request::Report;

/// What an answer is to be.
#[derive(Clone, Copy)]
pub enum Want {
    /// A reply with this status and this body, and no refusal.
    Done(HttpStatus, &'static str),
    /// The job is shown, with this status.
    Job(JobStatus),
    /// A report was taken, and the job has this status.
    Taken(JobStatus),
    /// This refusal, without a `Range`.
    Refused(Code),
    /// A sweep ended the first attempt, for this cause.
    Ended(Cause),
    /// A sweep found nothing to end and nothing to cancel.
    Nothing,
}

/// Has the reply this status, this `Job-Status`, this body and no `Range`?
fn is_told(reply: &Reply, status: HttpStatus, job: Option<JobStatus>, body: &str) -> bool {
    reply.status == status
        && reply.job_status == job
        && reply.range.is_none()
        && reply.code.is_none()
        && reply.body() == body.as_bytes()
}

fn is_reply(reply: &Reply, want: Want) -> bool {
    match want {
        Want::Done(status, body) => is_told(reply, status, None, body),
        Want::Job(status) => is_told(reply, HttpStatus::Fine, None, shown(status)),
        Want::Taken(job) => is_told(reply, HttpStatus::Fine, Some(job), ""),
        Want::Refused(code) => reply.code == Some(code) && reply.range.is_none(),
        Want::Ended(_) | Want::Nothing => false,
    }
}

fn is_swept(swept: &Swept, want: Want) -> bool {
    match (swept, want) {
        (Swept::Ended(1, found), Want::Ended(cause)) => *found == cause,
        (Swept::Nothing, Want::Nothing) => true,
        (Swept::Refused(found), Want::Refused(code)) => *found == code,
        _ => false,
    }
}

/// Is the answer what it is to be?
pub fn is(answer: &Answer, want: Want) -> bool {
    match answer {
        Answer::Reply(reply) => is_reply(reply, want),
        Answer::Swept(swept) => is_swept(swept, want),
    }
}

/// What is answered once the store has failed.
pub const STORE_FAILED: Want = Want::Refused(Code::M17);

/// The job as it is shown with a status.
fn shown(status: JobStatus) -> &'static str {
    match status {
        JobStatus::Running => {
            "{\"id\":1,\"name\":\"build\",\"stage\":\"build\",\"status\":\"running\"}"
        }
        JobStatus::Success => {
            "{\"id\":1,\"name\":\"build\",\"stage\":\"build\",\"status\":\"success\"}"
        }
        JobStatus::Failed => {
            "{\"id\":1,\"name\":\"build\",\"stage\":\"build\",\"status\":\"failed\"}"
        }
        JobStatus::Canceled => {
            "{\"id\":1,\"name\":\"build\",\"stage\":\"build\",\"status\":\"canceled\"}"
        }
    }
}

/// The grant of the job, as the first attempt.
const GRANTED: &str =
    "{\"id\":1,\"job_info\":{\"name\":\"build\",\"project_id\":1,\"stage\":\"build\"},\"script\":[\"make\"],\"timeout\":3600,\"token\":\"j1-abababababababababababababababab\",\"variables\":[{\"key\":\"CI\",\"value\":\"true\"},{\"key\":\"CI_COMMIT_BRANCH\",\"value\":\"main\"},{\"key\":\"CI_COMMIT_REF_NAME\",\"value\":\"main\"},{\"key\":\"CI_JOB_ID\",\"value\":\"1\"},{\"key\":\"CI_JOB_NAME\",\"value\":\"build\"},{\"key\":\"CI_JOB_STAGE\",\"value\":\"build\"},{\"key\":\"CI_PIPELINE_ID\",\"value\":\"1\"},{\"key\":\"CI_PIPELINE_SOURCE\",\"value\":\"api\"},{\"key\":\"CI_PROJECT_ID\",\"value\":\"1\"}]}";

/// What a runner gets that is given no job.
pub const NO_JOB: Want = Want::Done(HttpStatus::NoContent, "");

/// What the first thing of its kind is answered, where the things of the first path before it have happened.
pub fn first(act: Act) -> Want {
    let (status, body) = match act {
        Act::AddProject(_) => (
            HttpStatus::Created,
            "{\"id\":1,\"token\":\"p1-abababababababababababababababab\"}",
        ),
        Act::AddRunner(_) => (
            HttpStatus::Created,
            "{\"id\":1,\"token\":\"r1-abababababababababababababababab\"}",
        ),
        Act::Pause(true) => (HttpStatus::Fine, "{\"id\":1,\"paused\":true}"),
        Act::Pause(false) => (HttpStatus::Fine, "{\"id\":1,\"paused\":false}"),
        Act::SetFile(_) => (HttpStatus::Fine, "{\"jobs\":1}"),
        Act::CreatePipeline => (
            HttpStatus::Created,
            "{\"id\":1,\"jobs\":[{\"id\":1,\"name\":\"build\",\"stage\":\"build\",\"status\":\"pending\"}],\"ref\":\"main\",\"source\":\"api\",\"status\":\"pending\"}",
        ),
        Act::AskJob => (HttpStatus::Created, GRANTED),
        Act::RetryJob => (
            HttpStatus::Fine,
            "{\"id\":1,\"name\":\"build\",\"stage\":\"build\",\"status\":\"pending\"}",
        ),
        Act::Prune(_) => (HttpStatus::Fine, "{\"pruned\":1}"),
        Act::Tell(Report::Running) => return Want::Taken(JobStatus::Running),
        Act::Tell(Report::Success(_)) => return Want::Taken(JobStatus::Success),
        Act::Tell(Report::Failed(_, _)) => return Want::Taken(JobStatus::Failed),
        Act::Show => return Want::Job(JobStatus::Running),
        Act::CancelJob => return Want::Job(JobStatus::Canceled),
        Act::Sweep => return Want::Ended(Cause::StuckOrTimeoutFailure),
    };
    Want::Done(status, body)
}
