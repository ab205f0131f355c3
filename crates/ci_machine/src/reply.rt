//! What the machine answers.

ghost use Rattle.std.specs.Prelude.{◌≡◌};
ghost use Rattle.std.specs.Prelude.{IfOk};
ghost use Rattle.ci_machine.specs.Reply.{status_of, status_of_state, status_text, letter_of, number_of, detail_text, plain, body_text, refusal_text, refusal};

use crate::records::{AttemptState, Cause};
use crate::text::{Bytes, Text};
use std::alloc::{AllocError, Global};

/// How a request ended: the statuses of HTTP (RFC 9110, section 15) that the server sends.
#[derive(Clone, Copy, PartialEq, Eq, Drop)]
pub enum HttpStatus {
    Fine,
    Created,
    Accepted,
    NoContent,
    BadRequest,
    Unauthorized,
    Forbidden,
    NotFound,
    MethodNotAllowed,
    LengthRequired,
    PayloadTooLarge,
    RangeNotSatisfiable,
    HeaderFieldsTooLarge,
    NotImplemented,
    ServiceUnavailable,
}

/// Why a request was refused: a code, which its reply's body names.
#[derive(Clone, Copy, PartialEq, Eq, Drop)]
pub enum Code {
    /// The project token is unknown.
    M1,
    /// The project doesn't exist, or isn't the token's.
    M2,
    /// There is no such pipeline, job, variable or runner.
    M3,
    /// The runner token is unknown.
    M4,
    /// There is no such attempt, or the token isn't its token.
    M5,
    /// The attempt has ended.
    M6,
    /// The lease is over.
    M7,
    /// The bytes don't begin where the trace ends.
    M8,
    /// The trace would pass its limit.
    M9,
    /// The job isn't manual, so it can't be played.
    M10,
    /// The job hasn't ended, or was skipped, so it can't be tried again.
    M11,
    /// The job, or every job of the pipeline, has ended or was skipped, so there is nothing to cancel.
    M12,
    /// The project has no file.
    M13,
    /// What is to be made has a fault, which the detail names.
    M14,
    /// A number over the limit would be needed.
    M15,
    /// Memory was refused.
    M16,
    /// The store failed in this call or an earlier one.
    M17,
    /// The head is no head of HTTP, or its length is given twice or is no number.
    H1,
    /// The head has more than 8,192 bytes or 32 fields.
    H2,
    /// A request with a body lacks its length.
    H3,
    /// The body has more than 65,536 bytes.
    H4,
    /// No route has the path.
    H5,
    /// The path's routes don't have the method.
    H6,
    /// The body or a field isn't what the route wants.
    H7,
    /// The body has a coding.
    H8,
}

/// The code of a fault of what is to be made: the letter of its kind and its number, as `K11`.
#[derive(Clone, Copy, Drop)]
pub enum FaultCode {
    /// Of the graph of a pipeline's jobs.
    G(u8),
    /// Of a keyword, or of a text that must be a name.
    K(u8),
    /// Of an expression.
    X(u8),
    /// Of the profile of YAML.
    Y(u8),
}

/// The fault of what is to be made: its code, and what more is said of it.
#[derive(Drop)]
pub enum Detail {
    /// The code alone, as `G3`.
    Code(FaultCode),
    /// With the keyword that it speaks of, as `K2 image`.
    Keyword(FaultCode, Text),
    /// With the code of the expression's fault, as `K13 X2`.
    Expression(FaultCode, FaultCode),
    /// With the line that it stands in, from 1, as `Y5 line 3`.
    Line(FaultCode, u64),
}

/// The state of an attempt, as its runner is told in the field `Job-Status`.
#[derive(Clone, Copy, PartialEq, Eq, Drop)]
pub enum JobStatus {
    Running,
    Success,
    Failed,
    Canceled,
}

/// A method that a path may have (RFC 9110, section 9).
#[derive(Clone, Copy, Drop)]
pub enum Method {
    Delete,
    Get,
    Patch,
    Post,
    Put,
}

/// The methods of a path, in the order of their names: one, or two.
#[derive(Clone, Copy, Drop)]
pub struct Methods {
    pub first: Method,
    pub second: Option<Method>,
}

/// A body that was made for a reply.
#[derive(Drop)]
pub enum Body {
    Json(Text),
    Plain(Bytes),
}

/// The reply to a request.
#[derive(Drop)]
pub struct Reply {
    pub status: HttpStatus,
    /// Why the request was refused, if it was.
    pub code: Option<Code>,
    pub job_status: Option<JobStatus>,
    /// The size of a trace, in bytes.
    pub range: Option<u64>,
    /// The methods of the path, where the request has another.
    pub allow: Option<Methods>,
    /// The body. A refusal without one has a fixed text that names its code.
    pub body: Option<Body>,
}

impl Code {
    /// The status of a reply with this code.
    pub fn status(self) -> HttpStatus
        ensures { result ≡ status_of self }
    {
        match self {
            Code::M1 => HttpStatus::Unauthorized,
            Code::M2 | Code::M3 | Code::H5 => HttpStatus::NotFound,
            Code::M4 | Code::M5 | Code::M6 | Code::M7 => HttpStatus::Forbidden,
            Code::M11 | Code::M12 => HttpStatus::Forbidden,
            Code::M8 => HttpStatus::RangeNotSatisfiable,
            Code::M9 | Code::H4 => HttpStatus::PayloadTooLarge,
            Code::M10 | Code::M13 | Code::M14 | Code::H1 | Code::H7 => HttpStatus::BadRequest,
            Code::M15 | Code::M16 | Code::M17 => HttpStatus::ServiceUnavailable,
            Code::H2 => HttpStatus::HeaderFieldsTooLarge,
            Code::H3 => HttpStatus::LengthRequired,
            Code::H6 => HttpStatus::MethodNotAllowed,
            Code::H8 => HttpStatus::NotImplemented,
        }
    }

    /// The fixed body of a reply with this code.
    pub fn body(self) -> &'static str
        ensures { result.now ≡ refusal_text self }
    {
        match self {
            Code::M1 => "{\"code\":\"M1\"}",
            Code::M2 => "{\"code\":\"M2\"}",
            Code::M3 => "{\"code\":\"M3\"}",
            Code::M4 => "{\"code\":\"M4\"}",
            Code::M5 => "{\"code\":\"M5\"}",
            Code::M6 => "{\"code\":\"M6\"}",
            Code::M7 => "{\"code\":\"M7\"}",
            Code::M8 => "{\"code\":\"M8\"}",
            Code::M9 => "{\"code\":\"M9\"}",
            Code::M10 => "{\"code\":\"M10\"}",
            Code::M11 => "{\"code\":\"M11\"}",
            Code::M12 => "{\"code\":\"M12\"}",
            Code::M13 => "{\"code\":\"M13\"}",
            Code::M14 => "{\"code\":\"M14\"}",
            Code::M15 => "{\"code\":\"M15\"}",
            Code::M16 => "{\"code\":\"M16\"}",
            Code::M17 => "{\"code\":\"M17\"}",
            Code::H1 => "{\"code\":\"H1\"}",
            Code::H2 => "{\"code\":\"H2\"}",
            Code::H3 => "{\"code\":\"H3\"}",
            Code::H4 => "{\"code\":\"H4\"}",
            Code::H5 => "{\"code\":\"H5\"}",
            Code::H6 => "{\"code\":\"H6\"}",
            Code::H7 => "{\"code\":\"H7\"}",
            Code::H8 => "{\"code\":\"H8\"}",
        }
    }
}

impl FaultCode {
    fn letter(self) -> &'static str
        ensures { result.now ≡ letter_of self }
    {
        match self {
            FaultCode::G(_) => "G",
            FaultCode::K(_) => "K",
            FaultCode::X(_) => "X",
            FaultCode::Y(_) => "Y",
        }
    }

    fn number(self) -> u8
        ensures { result ≡ number_of self }
    {
        match self {
            FaultCode::G(number)
            | FaultCode::K(number)
            | FaultCode::X(number)
            | FaultCode::Y(number) => number,
        }
    }
}

impl Detail {
    /// The detail as a reply's body names it.
    pub fn text(&self, alloc: Global) -> Result<Text, AllocError>
        ensures { IfOk result (λ t. t ≡ detail_text self.now) }
    {
        let code = match self {
            Detail::Code(code)
            | Detail::Keyword(code, _)
            | Detail::Expression(code, _)
            | Detail::Line(code, _) => *code,
        };
        let letter = code.letter();
        let number = code.number();
        let text = match self {
            Detail::Code(_) => format!(in alloc; "{letter}{number}")?,
            Detail::Keyword(_, keyword) => {
                let keyword = keyword.as_str();
                format!(in alloc; "{letter}{number} {keyword}")?
            }
            Detail::Expression(_, inner) => {
                let inner_letter = inner.letter();
                let inner_number = inner.number();
                format!(in alloc; "{letter}{number} {inner_letter}{inner_number}")?
            }
            Detail::Line(_, line) => format!(in alloc; "{letter}{number} line {line}")?,
        };
        Ok(Text::new(text))
    }
}

impl JobStatus {
    /// The status of an attempt in this state.
    pub fn of(state: AttemptState) -> JobStatus
        ensures { result ≡ status_of_state state }
    {
        match state {
            AttemptState::Live => JobStatus::Running,
            AttemptState::Succeeded(_) => JobStatus::Success,
            AttemptState::Failed(_, _) => JobStatus::Failed,
            AttemptState::Cancelled => JobStatus::Canceled,
        }
    }

    /// The status as replies name it.
    pub fn as_str(self) -> &'static str
        ensures { result.now ≡ status_text self }
    {
        match self {
            JobStatus::Running => "running",
            JobStatus::Success => "success",
            JobStatus::Failed => "failed",
            JobStatus::Canceled => "canceled",
        }
    }
}

impl Reply {
    /// The reply that has this status and nothing more.
    pub fn plain(status: HttpStatus) -> Reply
        ensures { result ≡ plain status }
    {
        Reply {
            status,
            code: None,
            job_status: None,
            range: None,
            allow: None,
            body: None,
        }
    }

    /// The reply of a refusal that has no detail. It takes no memory.
    pub fn refusal(code: Code) -> Reply
        ensures { result ≡ refusal code }
    {
        let mut reply = Reply::plain(code.status());
        reply.code = Some(code);
        reply
    }

    /// The bytes of the body.
    pub fn body(&self) -> &[u8]
        ensures { result.now ≡ body_text self.now }
    {
        match (&self.body, self.code) {
            (Some(Body::Json(text)), _) => text.as_str().as_bytes(),
            (Some(Body::Plain(bytes)), _) => bytes.as_slice(),
            (None, Some(code)) => code.body().as_bytes(),
            (None, None) => b"",
        }
    }
}

/// What a sweep did.
#[derive(Clone, Copy, Drop)]
pub enum Swept {
    /// It ended the attempt of this number, as failed for this cause.
    Ended(u64, Cause),
    /// No lease was over, and it cancelled the pipeline of this number, which a newer one made redundant.
    Cancelled(u64),
    /// No lease was over, and no pipeline was redundant.
    Nothing,
    /// There was no sweep, for this cause.
    Refused(Code),
}

/// What an event is answered.
#[derive(Drop)]
pub enum Answer {
    Reply(Reply),
    Swept(Swept),
}
