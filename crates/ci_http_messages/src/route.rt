//! What a call asks for.

ghost use Rattle.std.specs.Prelude.{◌≡◌, ◌⊎◌, None, Some, Ok, Err, IfOk, IfErr, IsSome, MatchOption, option_map, codes, true, false};
ghost use Rattle.std.specs.Str.{is_utf8};
ghost use Rattle.ci_machine.specs.Prelude.{refusal, is_name};
ghost use Rattle.ci_http_messages.specs.Answers.{as_asked, map_key};
ghost use Rattle.ci_http_messages.specs.ReplyText.{listed};
ghost use Rattle.ci_http_messages.specs.RequestBytes.{field_in, text_or_empty, job_of, pipeline_of, asked_at, not_allowed, is_health, request_in, AsksMemory, Gives, AnswersFor};
ghost use Rattle.ci_http_messages.specs.Targets.{path_of};

use crate::call::Call;
use crate::fields::Found;
use crate::payloads::copy::copy_of;
use crate::payloads::creation::creation_in;
use crate::payloads::mode::mode_in;
use crate::payloads::range::start_in;
use crate::payloads::texts::{file_in, token_in, value_in};
use crate::payloads::update::update_in;
use crate::routing::lookup::Lookup;
use crate::routing::operation::Operation;
use crate::routing::paths::Paths;
use crate::target::path_of;
use ci_machine::reply::{Code, Methods, Reply};
use ci_machine::request::{
    GroupQuery, JobQuery, NewFile, NewMode, NewVariable, PipelineQuery, ReadQuery, Request,
    Subject, TracePart, VariableQuery,
};
use ci_machine::text::{Bytes, Text};
use ci_values::text::is_name;
use std::alloc::Global;
use std::str;

/// What a call asks for.
#[derive(Drop)]
pub enum Demand {
    /// A request of the machine.
    Request(Request),
    /// Whether the server is open. The machine isn't asked for that.
    Health,
}

/// What a call asks for by the table of routes (`routes`), which `paths` has, or the
/// reply that refuses it. Each route reads the fields and the body that the table lists, and no
/// others. A query behind the path has no part in it.
///
/// Errors, the first that holds: no route has the path (H5); its routes have other methods (H6,
/// with these); a field, a body or the key of a resource group isn't what the route wants (H7): a
/// field that stands twice, a body that has a fault, or a key that is no name. Memory may be refused
/// (M16) where the route is found and its fields are as it wants them, and its body may be JSON or
/// all is as it wants it.
///
/// A missing token counts as an empty one, which nothing has, and so does one that isn't UTF-8.
pub fn request_of(alloc: Global, paths: &Paths, call: &Call<'_>) -> Result<Demand, Reply>
    ensures ok { IfOk result (λ demand. request_in call.now ≡ Ok demand) }
    ensures err { IfErr result (λ reply. ((reply ≡ refusal Code.M16) × AsksMemory call.now) ⊎ (request_in call.now ≡ Err reply)) }
{
    match asked_by(paths, call) {
        Lookup::Found(operation) if is_health(&operation) => Ok(Demand::Health),
        Lookup::Found(operation) => match requested(alloc, operation, call) {
            Ok(request) => Ok(Demand::Request(request)),
            Err(why) => Err(Reply::refusal(why)),
        },
        Lookup::OtherMethods(first, second) => Err(not_allowed(Methods { first, second })),
        Lookup::NoRoute => Err(Reply::refusal(Code::H5)),
    }
}

// What a call asks for by its method and its path.
#[tactic(auto, using(crate::proofs::Utf8::is_text, crate::proofs::Utf8::no_text))]
fn asked_by<'c>(paths: &Paths, call: &'c Call<'_>) -> Lookup<&'c str>
    ensures { asked_at call.now.method (path_of call.now.target) ≡ as_asked (λ key. key.now) result }
{
    match str::from_utf8(path_of(call.target())) {
        Ok(path) => paths.look_up(call.method(), path),
        Err(_) => Lookup::NoRoute,
    }
}

// The reply where the path has these methods, and not the request's.
fn not_allowed(methods: Methods) -> Reply
    ensures { result ≡ not_allowed (listed methods) }
{
    let mut reply = Reply::refusal(Code::H6);
    reply.allow = Some(methods);
    reply
}

// Does an operation ask whether the server is open?
fn is_health(operation: &Operation<&str>) -> bool
    ensures { result ≡ is_health (map_key (λ key. key.now) operation.now) }
{
    match operation {
        Operation::Health => true,
        _ => false,
    }
}

// The request of an operation. Errors: the fields or the body of the call aren't as its route wants
// them, or no request asks for it (H7); memory was refused (M16).
fn requested(alloc: Global, operation: Operation<&str>, call: &Call<'_>) -> Result<Request, Code>
    ensures { AnswersFor (map_key (λ key. key.now) operation.entry) call.now result }
{
    match operation {
        Operation::AskJob => ask_job(alloc, call),
        Operation::UpdateJob(n) => update_job(alloc, n, call),
        Operation::AppendTrace(n) => append_trace(alloc, n, call),
        Operation::SetFile(id) => set_file(alloc, id, call),
        Operation::SetVariable(id, key) => set_variable(alloc, id, key, call),
        Operation::DeleteVariable(id, key) => delete_variable(alloc, id, key, call),
        Operation::SetMode(id, key) => set_mode(alloc, id, key, call),
        Operation::ShowMode(id, key) => show_mode(alloc, id, key, call),
        Operation::CreatePipeline(id) => create_pipeline(alloc, id, call),
        Operation::ShowPipeline(id, n) => {
            pipeline_in(alloc, id, n, call).map(Request::ShowPipeline)
        }
        Operation::CancelPipeline(id, n) => {
            pipeline_in(alloc, id, n, call).map(Request::CancelPipeline)
        }
        Operation::ShowJob(id, n) => job_in(alloc, id, n, call).map(Request::ShowJob),
        Operation::ShowTrace(id, n) => job_in(alloc, id, n, call).map(Request::ShowTrace),
        Operation::Play(id, n) => job_in(alloc, id, n, call).map(Request::Play),
        Operation::CancelJob(id, n) => job_in(alloc, id, n, call).map(Request::CancelJob),
        Operation::RetryJob(id, n) => job_in(alloc, id, n, call).map(Request::RetryJob),
        Operation::Read(id, subject) => read(alloc, id, subject, call),
        Operation::Health => Err(Code::H7),
    }
}

// A runner asks for a job: the body has its token.
fn ask_job(alloc: Global, call: &Call<'_>) -> Result<Request, Code>
    ensures { AnswersFor Operation.AskJob call.now result }
{
    token_in(alloc, call.body()).map(Request::AskJob)
}

// A runner says how an attempt stands: the body has that.
fn update_job(alloc: Global, attempt: u64, call: &Call<'_>) -> Result<Request, Code>
    ensures { AnswersFor (Operation.UpdateJob attempt) call.now result }
{
    update_in(alloc, attempt, call.body()).map(Request::UpdateJob)
}

// A runner sends a piece of an attempt's trace: the body, at the place that its range says.
fn append_trace(alloc: Global, attempt: u64, call: &Call<'_>) -> Result<Request, Code>
    ensures { AnswersFor (Operation.AppendTrace attempt) call.now result }
{
    let Some(field) = field_in(b"JOB-TOKEN", call) else {
        return Err(Code::H7);
    };
    let Some(range) = field_in(b"Content-Range", call) else {
        return Err(Code::H7);
    };
    let Some(from) = start_in(call.body().len() as u64, range) else {
        return Err(Code::H7);
    };
    let token = token_of(alloc, field)?;
    match call.body().to_vec(alloc) {
        Ok(bytes) => Ok(Request::AppendTrace(TracePart {
            attempt,
            token,
            from,
            bytes: Bytes::new(bytes),
        })),
        Err(_) => Err(Code::M16),
    }
}

// The body is to be a project's file.
fn set_file(alloc: Global, project: u64, call: &Call<'_>) -> Result<Request, Code>
    ensures { AnswersFor (Operation.SetFile project) call.now result }
{
    let field = project_field(call)?;
    let text = file_in(alloc, call.body())?;
    let token = token_of(alloc, field)?;
    Ok(Request::SetFile(NewFile {
        project,
        token,
        text,
    }))
}

// A variable of a project is to have the value that the body has.
fn set_variable(alloc: Global, project: u64, key: &str, call: &Call<'_>) -> Result<Request, Code>
    ensures { AnswersFor (Operation.SetVariable project key.now) call.now result }
{
    let field = project_field(call)?;
    let value = value_in(alloc, call.body())?;
    let token = token_of(alloc, field)?;
    let key = copy_of(alloc, key)?;
    Ok(Request::SetVariable(NewVariable {
        project,
        token,
        key,
        value,
    }))
}

// A variable of a project is to go.
fn delete_variable(alloc: Global, project: u64, key: &str, call: &Call<'_>) -> Result<Request, Code>
    ensures { AnswersFor (Operation.DeleteVariable project key.now) call.now result }
{
    let token = token_of(alloc, project_field(call)?)?;
    let key = copy_of(alloc, key)?;
    Ok(Request::DeleteVariable(VariableQuery {
        project,
        token,
        key,
    }))
}

// A resource group of a project is to have the process mode that the body has.
fn set_mode(alloc: Global, project: u64, key: &str, call: &Call<'_>) -> Result<Request, Code>
    ensures { AnswersFor (Operation.SetMode project key.now) call.now result }
{
    let field = project_field(call)?;
    let group = named(key)?;
    let order = mode_in(alloc, call.body())?;
    let token = token_of(alloc, field)?;
    let group = copy_of(alloc, group)?;
    Ok(Request::SetMode(NewMode {
        project,
        token,
        group,
        order,
    }))
}

// A resource group of a project is asked for.
fn show_mode(alloc: Global, project: u64, key: &str, call: &Call<'_>) -> Result<Request, Code>
    ensures { AnswersFor (Operation.ShowMode project key.now) call.now result }
{
    let field = project_field(call)?;
    let group = named(key)?;
    let token = token_of(alloc, field)?;
    let group = copy_of(alloc, group)?;
    Ok(Request::ShowMode(GroupQuery {
        project,
        token,
        group,
    }))
}

// The key, which is a name. Errors: it is none (H7).
fn named(key: &str) -> Result<&str, Code>
    ensures ok { IfOk result (λ name. (name.now ≡ key.now) × (is_name key.now ≡ true)) }
    ensures err { IfErr result (λ why. (why ≡ Code.H7) × (is_name key.now ≡ false)) }
{
    if is_name(key) { Ok(key) } else { Err(Code::H7) }
}

// A pipeline of a project is to be made as the body says.
fn create_pipeline(alloc: Global, project: u64, call: &Call<'_>) -> Result<Request, Code>
    ensures { AnswersFor (Operation.CreatePipeline project) call.now result }
{
    let field = project_field(call)?;
    // No memory is asked for, not even for the token, where the body can't be JSON.
    if !may_be_json(call.body()) {
        return Err(Code::H7);
    }
    let token = token_of(alloc, field)?;
    creation_in(alloc, project, token, call.body()).map(Request::CreatePipeline)
}

// A project, or what it has, is asked for.
fn read(alloc: Global, project: u64, subject: Subject, call: &Call<'_>) -> Result<Request, Code>
    ensures { AnswersFor (Operation.Read project subject) call.now result }
{
    let token = token_of(alloc, project_field(call)?)?;
    Ok(Request::Read(ReadQuery {
        project,
        token,
        subject,
    }))
}

// The pipeline of a project that is named.
fn pipeline_in(
    alloc: Global,
    project: u64,
    pipeline: u64,
    call: &Call<'_>,
) -> Result<PipelineQuery, Code>
    ensures { let query = option_map (λ field. pipeline_of project field pipeline) (field_in (codes "PRIVATE-TOKEN") call.now)
        in Gives (IsSome query) query result }
{
    let token = token_of(alloc, project_field(call)?)?;
    Ok(PipelineQuery {
        project,
        token,
        pipeline,
    })
}

// The job of a project that is named.
fn job_in(alloc: Global, project: u64, job: u64, call: &Call<'_>) -> Result<JobQuery, Code>
    ensures { let query = option_map (λ field. job_of project field job) (field_in (codes "PRIVATE-TOKEN") call.now)
        in Gives (IsSome query) query result }
{
    let token = token_of(alloc, project_field(call)?)?;
    Ok(JobQuery {
        project,
        token,
        job,
    })
}

// The one value of the field with a project's token. Errors: the field stands twice (H7).
fn project_field<'c>(call: &'c Call<'_>) -> Result<&'c [u8], Code>
    ensures ok { IfOk result (λ field. field_in (codes "PRIVATE-TOKEN") call.now ≡ Some field.now) }
    ensures err { IfErr result (λ why. (why ≡ Code.H7) × (field_in (codes "PRIVATE-TOKEN") call.now ≡ None)) }
{
    field_in(b"PRIVATE-TOKEN", call).ok_or(Code::H7)
}

// The one value of a field, which is empty where the field is missing; `None` where it stands twice.
fn field_in<'c>(name: &[u8], call: &'c Call<'_>) -> Option<&'c [u8]>
    ensures { MatchOption result
        (field_in name.now call.now ≡ None)
        (λ value. field_in name.now call.now ≡ Some value.now) }
{
    match call.field(name) {
        Found::Absent => Some(b""),
        Found::Once(value) => Some(value),
        Found::Twice => None,
    }
}

// The token in a field. Errors: memory was refused (M16).
fn token_of(alloc: Global, field: &[u8]) -> Result<Text, Code>
    ensures ok { IfOk result (λ token. token ≡ text_or_empty field.now) }
    ensures err { IfErr result (λ why. why ≡ Code.M16) }
{
    copy_of(alloc, text_or_empty(field))
}

// The text of a field; what isn't UTF-8 is no token, as the empty text is none.
#[tactic(auto, using(crate::proofs::Utf8::is_text, crate::proofs::Utf8::no_text))]
fn text_or_empty(field: &[u8]) -> &str
    ensures { result.now ≡ text_or_empty field.now }
{
    match str::from_utf8(field) {
        Ok(text) => text,
        Err(_) => "",
    }
}

#[tactic(auto, using(crate::proofs::Utf8::is_text, crate::proofs::Utf8::no_text))]
fn may_be_json(body: &[u8]) -> bool
    ensures { result ≡ is_utf8 body.now }
{
    str::from_utf8(body).is_ok()
}
