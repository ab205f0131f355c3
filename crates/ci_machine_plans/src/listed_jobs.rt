//! The jobs of a pipeline and the resource groups of a project, as they are read: compact JSON, the members of each object in the order of
//! their bytes.

ghost use Rattle.std.specs.Prelude.{◌≡◌, length, IfOk};
ghost use Rattle.serde_json.specs.Data.{array, number, unsigned};
ghost use Rattle.serde_json.specs.View.{view, items_of};
ghost use Rattle.ci_machine_steps.specs.Prelude.{listed, text_or_null, needs_among, told_job, told_jobs, json};
ghost use Rattle.ci_machine_plans.specs.Objects.{members_of, around_members};

use crate::body::lines;
use crate::listings::{Listed, attempts_value_of, body_of, number_or_null};
use crate::object::Object;
use ci_board::effect::is_allowed;
use ci_board::facts::{Facts, Row};
use ci_machine::records::{Attempt, Claim, GroupOrder, Job, Need, Runner, process_mode, when_text};
use ci_machine::reply::Body;
use ci_machine::report::ShownStatus;
use ci_machine::text::Text;
use serde_json::{Number, Value};
use std::alloc::{AllocError, Global};

/// What is told of the jobs of a pipeline beside themselves.
#[derive(Clone, Copy)]
pub struct Around<'a> {
    /// The resource groups for which the jobs must wait.
    pub claims: &'a [Claim],
    /// The project of the pipeline.
    pub project: u64,
    /// The runners that made the attempts.
    pub runners: &'a [Runner],
    /// At least the needs of the jobs.
    pub needs: &'a [Need],
    /// At least the attempts of the jobs.
    pub attempts: &'a [Attempt],
}

/// A resource group with its order, and the number of the job whose live attempt holds it.
#[derive(Drop)]
pub struct ToldGroup {
    pub key: Text,
    pub order: Option<GroupOrder>,
    pub holder: Option<u64>,
}

/// A text, or null.
fn text_value(alloc: Global, text: &Option<Text>) -> Result<Value, AllocError>
    ensures { IfOk result (λ v. view v ≡ text_or_null text.now) }
{
    match text {
        Some(text) => Value::try_from_str(alloc, text.as_str()),
        None => Ok(Value::Null),
    }
}

/// The numbers of the jobs that a job waits for.
fn needs_value(alloc: Global, needs: &[Need], job: u64) -> Result<Value, AllocError>
    ensures { IfOk result (λ v. view v ≡ listed (λ n. number (unsigned n)) (needs_among needs.now job)) }
{
    let mut items = Vec::new(alloc);
    for need in needs {
        if need.job == job {
            items.push(Value::Number(Number::from(need.pred)))?;
        }
    }
    Ok(Value::Array(items))
}

/// What is told of a job that isn't one word or number: its attempts, the jobs that it waits for, its resource group and its tags.
fn around_object(alloc: Global, around: &Around, job: &Job) -> Result<Object, AllocError>
    ensures { IfOk result (λ o. members_of o ≡ around_members around.now.runners.now around.now.needs.now around.now.attempts.now job.now) }
{
    let attempts = attempts_value_of(alloc, around.runners, around.attempts, job.id)?;
    let told = Object::new(alloc).with(alloc, "attempts", attempts)?;
    let needs = needs_value(alloc, around.needs, job.id)?;
    let told = told.with(alloc, "needs", needs)?;
    let group = text_value(alloc, &job.options.resource_group)?;
    let told = told.with(alloc, "resource_group", group)?;
    let tags = lines(alloc, job.options.tags.as_slice())?;
    told.with(alloc, "tag_list", tags)
}

/// A job with its facts and its row.
fn job_value(
    alloc: Global,
    around: &Around,
    job: &Job,
    facts: Facts,
    row: Row,
) -> Result<Value, AllocError>
    ensures { IfOk result (λ v. view v ≡ told_job around.now.claims.now around.now.project around.now.runners.now around.now.needs.now around.now.attempts.now job.now facts row) }
{
    let allowed = is_allowed(&job.options.part, facts, row.status);
    let status = ShownStatus::of(around.claims, around.project, job, row.status).as_str();
    let told = around_object(alloc, around, job)?;
    let told = told.with_flag(alloc, "allow_failure", allowed)?;
    let told = told.with_number(alloc, "id", job.id)?;
    let told = told.with_text(alloc, "name", job.name.as_str())?;
    let told = told.with_text(alloc, "stage", job.stage.as_str())?;
    let told = told.with_text(alloc, "status", status)?;
    let told = told.with_text(alloc, "when", when_text(job.options.part.when))?;
    Ok(told.into_value())
}

/// Jobs, each with its facts and its row.
fn jobs_value(
    alloc: Global,
    around: &Around,
    jobs: &[Job],
    facts: &[Facts],
    rows: &[Row],
) -> Result<Value, AllocError>
    requires facts { length facts.now ≡ length jobs.now }
    requires rows { length rows.now ≡ length jobs.now }
    ensures { IfOk result (λ v. view v ≡ array (items_of (told_jobs around.now.claims.now around.now.project around.now.runners.now around.now.needs.now around.now.attempts.now jobs.now facts.now rows.now))) }
{
    let mut items = Vec::new(alloc);
    for i in 0..jobs.len() {
        items.push(job_value(alloc, around, &jobs[i], facts[i], rows[i])?)?;
    }
    Ok(Value::Array(items))
}

/// The body that tells the jobs of a pipeline, which have these facts and rows, with what is around them. Errors: memory was refused.
pub fn jobs(
    alloc: Global,
    around: &Around,
    jobs: &[Job],
    facts: &[Facts],
    rows: &[Row],
) -> Result<Body, AllocError>
    requires facts { length facts.now ≡ length jobs.now }
    requires rows { length rows.now ≡ length jobs.now }
    ensures { IfOk result (λ body. body ≡ json (array (items_of (told_jobs around.now.claims.now around.now.project around.now.runners.now around.now.needs.now around.now.attempts.now jobs.now facts.now rows.now)))) }
{
    let told = jobs_value(alloc, around, jobs, facts, rows)?;
    body_of(alloc, told)
}

impl Listed for ToldGroup {
    ghost use Rattle.ci_machine_plans.specs.Objects.{told_group, group_is_plain};

    ghost as_data = { told_group };

    ghost plain = { λ g. group_is_plain g.key g.order g.holder };

    fn value(&self, alloc: Global) -> Result<Value, AllocError> {
        let told = Object::new(alloc).with(alloc, "holder", number_or_null(self.holder))?;
        let told = told.with_text(alloc, "key", self.key.as_str())?;
        let told = told.with_text(alloc, "process_mode", process_mode(self.order))?;
        Ok(told.into_value())
    }
}
