//! The records of a new pipeline, and the plan that makes it.

ghost use Rattle.std.specs.Prelude.{◌≡◌, ◌+◌, ◌≤◌, ◌++◌, [], IfOk, OnOk, length, map, option_map, replicate};
ghost use Rattle.ci_machine_steps.specs.Prelude.{text_view, words_view, no_facts, status_of_jobs, put, need_cmp};
ghost use Rattle.ci_machine.specs.Prelude.{AreWithin};
ghost use Rattle.ci_graph_layout.specs.Prelude.{plan_view, given_view, included_view};
ghost use Rattle.ci_machine_steps.specs.Pipelines as pipelines;
ghost use Rattle.ci_machine.specs.declared.change.RowChange.TheVariants as change;
ghost use Rattle.ci_machine.specs.declared.change.Record.TheVariants as row;
ghost use Rattle.ci_machine_pipelines.specs.Creations.{creation_view, layout_view, need_of_key, origin_view, creation_of, IsMadeOf, created_text};

use crate::layers::all_variables;
use crate::layouts::Start;
use ci_board::facts::{Facts, Row, Status};
use ci_config::Config;
use ci_graph_layout::{Given, IncludedJob, PipelinePlan};
use ci_machine::change::{Changes, Counter, Record, RowChange};
use ci_machine::limits::DEFAULT_TIMEOUT_SECONDS;
use ci_machine::records::{
    BoardRow, Claim, Job, JobOptions, JobVariable, MAX_NUMBER, Need, Pipeline,
};
use ci_machine::reply::Reply;
use ci_machine::text::{Text, Texts};
use ci_machine_plans::body;
use ci_machine_plans::replies::created;
use std::alloc::{AllocError, Global};
use std::collections::BTreeSet;

/// The records of a new pipeline.
#[derive(Drop)]
pub struct Creation {
    pub pipeline: Pipeline,
    /// By their numbers, as they stand in the pipeline.
    pub jobs: Vec<Job>,
    /// By the job, and then by the name.
    pub variables: Vec<JobVariable>,
    /// By the job, and then by the one that it waits for; each once.
    pub needs: Vec<Need>,
}

/// Is the number of the pipeline, or that of the last of so many jobs from the first on, over the limit?
fn lacks_numbers(pipeline: u64, first: u64, count: u64) -> bool
    ensures { result ≡ pipelines.lacks_numbers pipeline first count }
{
    pipeline > MAX_NUMBER || first > MAX_NUMBER + 1 || count > MAX_NUMBER + 1 - first
}

/// The pipeline that is asked for.
fn new_pipeline(start: &Start) -> Result<Pipeline, AllocError>
    ensures { IfOk result (λ p. p ≡ pipelines.new_pipeline start.now.id start.now.asked.now start.now.moment) }
{
    Ok(Pipeline {
        id: start.id,
        project: start.asked.project,
        git_ref: start.asked.git_ref.clone()?,
        kind: start.asked.kind,
        source: start.asked.source,
        created: start.moment,
    })
}

/// Copies of texts.
fn copies(alloc: Global, texts: &[&str]) -> Result<Texts, AllocError>
    ensures { IfOk result (λ t. t ≡ words_view texts.now) }
{
    let mut copies = Vec::new(alloc);
    for text in texts {
        copies.push(Text::copy_of(alloc, *text)?)?;
    }
    Ok(Texts::new(copies))
}

/// A copy of a text, if there is one.
fn copy_if_any(alloc: Global, text: Option<&str>) -> Result<Option<Text>, AllocError>
    ensures { IfOk result (λ t. t ≡ option_map text_view text.entry) }
{
    match text {
        Some(text) => Ok(Some(Text::copy_of(alloc, text)?)),
        None => Ok(None),
    }
}

/// What the file and its rules fix of a job.
fn job_options(alloc: Global, job: &IncludedJob) -> Result<JobOptions, AllocError>
    ensures { IfOk result (λ o. o ≡ pipelines.job_options (included_view job.now)) }
{
    let script = copies(alloc, &job.job.script)?;
    let tags = copies(alloc, &job.job.tags)?;
    let resource_group = copy_if_any(alloc, job.job.resource_group)?;
    let part = job.part()?;
    Ok(JobOptions {
        script,
        timeout: job.job.timeout.unwrap_or(DEFAULT_TIMEOUT_SECONDS),
        tags,
        resource_group,
        interruptible: job.job.interruptible,
        part,
    })
}

/// The job at a position of a pipeline, whose first job has the number `first`.
fn new_job(
    alloc: Global,
    pipeline: u64,
    first: u64,
    position: u64,
    job: &IncludedJob,
) -> Result<Job, AllocError>
    requires { first + position ≤ MAX_NUMBER }
    ensures { IfOk result (λ j. j ≡ pipelines.new_job pipeline first position (included_view job.now)) }
{
    let name = Text::copy_of(alloc, job.job.name)?;
    let stage = Text::copy_of(alloc, job.job.stage)?;
    let options = job_options(alloc, job)?;
    Ok(Job {
        id: first + position,
        pipeline,
        position,
        name,
        stage,
        options,
        played: false,
        cancelled: false,
        set_aside: 0,
    })
}

/// The jobs of a pipeline, the first of which has the number `first`.
fn new_jobs(
    alloc: Global,
    pipeline: u64,
    first: u64,
    jobs: &[IncludedJob],
) -> Result<Vec<Job>, AllocError>
    requires { first + length jobs.now ≤ MAX_NUMBER + 1 }
    ensures { IfOk result (λ v. v.items ≡ pipelines.new_jobs pipeline first 0 (map included_view jobs.now)) }
{
    let mut records = Vec::with_capacity(alloc, jobs.len())?;
    for (position, job) in jobs.iter().enumerate() {
        records.push(new_job(alloc, pipeline, first, position as u64, job)?)?;
    }
    Ok(records)
}

/// The jobs that wait, each with one that it waits for.
type NeedKeys = BTreeSet<(u64, u64)>;

/// Puts the key of a need at its place, where it replaces one that is the same.
fn put_key(keys: &mut NeedKeys, key: (u64, u64)) -> Result<(), AllocError>
    ensures { OnOk result (map need_of_key keys.new.keys ≡ put need_cmp (need_of_key key) (map need_of_key keys.old.keys)) }
{
    let _count = keys.len();
    keys.insert(key)?;
    Ok(())
}

/// The keys of the needs that pairs of positions are, by the numbers of the jobs.
fn need_keys(
    alloc: Global,
    first: u64,
    count: usize,
    pairs: &[(usize, usize)],
) -> Result<NeedKeys, AllocError>
    requires within { AreWithin count pairs.now }
    requires numbers { first + count ≤ MAX_NUMBER + 1 }
    ensures { IfOk result (λ keys. map need_of_key keys.keys ≡ pipelines.put_needs first pairs.now []) }
{
    let mut keys = BTreeSet::new(alloc);
    for k in 0..pairs.len() {
        let pair = pairs[k];
        put_key(&mut keys, (first + pair.1 as u64, first + pair.0 as u64))?;
    }
    Ok(keys)
}

/// The needs with these keys.
fn needs_of(alloc: Global, keys: &NeedKeys) -> Result<Vec<Need>, AllocError>
    ensures { IfOk result (λ v. v.items ≡ map need_of_key keys.now.keys) }
{
    let mut needs = Vec::new(alloc);
    for key in keys {
        needs.push(Need {
            job: key.0,
            pred: key.1,
        })?;
    }
    Ok(needs)
}

/// The records of a plan whose numbers are within the limit.
fn all_records<'a, 't>(
    alloc: Global,
    config: &'a Config<'t>,
    given: &Given<'a>,
    plan: &PipelinePlan<'a, 't>,
    start: &Start,
) -> Result<Creation, AllocError>
    requires given { given_view given.now ≡ given_view start.now.given }
    requires within { AreWithin (length (plan_view plan.now).jobs) (plan_view plan.now).pairs }
    requires numbers { start.now.first_job + length plan.now.jobs.items ≤ MAX_NUMBER + 1 }
    ensures { IfOk result (λ made. creation_view made ≡ creation_of (origin_view start.now) (layout_view config.now plan.now)) }
{
    let included = plan.jobs.as_slice();
    let pipeline = new_pipeline(start)?;
    let jobs = new_jobs(alloc, start.id, start.first_job, included)?;
    let variables = all_variables(alloc, given, config, start.first_job, included)?;
    let keys = need_keys(
        alloc,
        start.first_job,
        included.len(),
        plan.pairs.as_slice(),
    )?;
    let needs = needs_of(alloc, &keys)?;
    Ok(Creation {
        pipeline,
        jobs,
        variables,
        needs,
    })
}

/// The records of a plan, or none where a number is over the limit.
pub(crate) fn records_of<'a, 't>(
    alloc: Global,
    config: &'a Config<'t>,
    given: &Given<'a>,
    plan: &PipelinePlan<'a, 't>,
    start: &Start,
) -> Result<Option<Creation>, AllocError>
    requires given { given_view given.now ≡ given_view start.now.given }
    requires within { AreWithin (length (plan_view plan.now).jobs) (plan_view plan.now).pairs }
    ensures { IfOk result (λ made. IsMadeOf (origin_view start.now) (layout_view config.now plan.now) made) }
{
    if lacks_numbers(start.id, start.first_job, plan.jobs.len() as u64) {
        return Ok(None);
    }
    let made = all_records(alloc, config, given, plan, start)?;
    Ok(Some(made))
}

/// Puts the jobs behind the changes that are there.
fn put_jobs(changes: &mut Vec<RowChange>, jobs: Vec<Job>) -> Result<(), AllocError>
    ensures { OnOk result (changes.new.items ≡ changes.old.items ++ map (λ j. change.Put (row.Job j)) jobs.items) }
{
    for job in jobs {
        changes.push(RowChange::Put(Record::Job(job)))?;
    }
    Ok(())
}

/// Puts the variables behind the changes that are there.
fn put_variables(
    changes: &mut Vec<RowChange>,
    variables: Vec<JobVariable>,
) -> Result<(), AllocError>
    ensures { OnOk result (changes.new.items ≡ changes.old.items ++ map (λ v. change.Put (row.JobVariable v)) variables.items) }
{
    for variable in variables {
        changes.push(RowChange::Put(Record::JobVariable(variable)))?;
    }
    Ok(())
}

/// Puts the needs behind the changes that are there.
fn put_needs(changes: &mut Vec<RowChange>, needs: Vec<Need>) -> Result<(), AllocError>
    ensures { OnOk result (changes.new.items ≡ changes.old.items ++ map (λ w. change.Put (row.Need w)) needs.items) }
{
    for need in needs {
        changes.push(RowChange::Put(Record::Need(need)))?;
    }
    Ok(())
}

/// The facts of so many jobs that weren't tried.
fn first_facts(alloc: Global, count: usize) -> Result<Vec<Facts>, AllocError>
    ensures { IfOk result (λ v. v.items ≡ replicate count no_facts) }
{
    let none = Facts {
        last: None,
        attempts: 0,
        cancelled: false,
        played: false,
    };
    vec![in alloc; none; count]
}

/// The rows, without the numbers of their jobs.
fn bare_rows(alloc: Global, rows: &[BoardRow]) -> Result<Vec<Row>, AllocError>
    ensures { IfOk result (λ v. v.items ≡ map (λ r. r.row) rows.now) }
{
    rows.iter().map(|kept| kept.row).collect(alloc)
}

impl Creation {
    /// The status of the pipeline, of whose jobs none was tried, and which have these rows. Errors: memory was refused.
    pub fn status(&self, alloc: Global, rows: &[BoardRow]) -> Result<Status, AllocError>
        requires { length rows.now ≡ length self.now.jobs.items }
        ensures { IfOk result (λ status. status ≡ status_of_jobs self.now.jobs.items (replicate (length self.now.jobs.items) no_facts) (map (λ r. r.row) rows.now)) }
    {
        let facts = first_facts(alloc, self.jobs.len())?;
        let rows = bare_rows(alloc, rows)?;
        let jobs = self.jobs.as_slice();
        body::status_of(alloc, jobs, facts.as_slice(), rows.as_slice())
    }

    /// The body that shows the pipeline with its jobs, of which none was tried, and which have these rows, where these are the resource
    /// groups for which they must wait.
    fn text(&self, alloc: Global, claims: &[Claim], rows: &[BoardRow]) -> Result<Text, AllocError>
        requires { length rows.now ≡ length self.now.jobs.items }
        ensures { IfOk result (λ t. t ≡ created_text self.now claims.now (map (λ r. r.row) rows.now)) }
    {
        let facts = first_facts(alloc, self.jobs.len())?;
        let rows = bare_rows(alloc, rows)?;
        let jobs = self.jobs.as_slice();
        body::pipeline(
            alloc,
            &self.pipeline,
            claims,
            jobs,
            facts.as_slice(),
            rows.as_slice(),
        )
    }

    /// The records are added; and the numbers that come next, where the first job has this number.
    fn into_changes(self, alloc: Global, first_job: u64) -> Result<Changes, AllocError>
        requires pipeline { self.pipeline.id ≤ MAX_NUMBER }
        requires jobs { first_job + length self.jobs.items ≤ MAX_NUMBER + 1 }
        ensures { IfOk result (λ changes. changes ≡ pipelines.creation_changes first_job (creation_view self)) }
    {
        let Creation {
            pipeline,
            jobs,
            variables,
            needs,
        } = self;
        let next_pipeline = pipeline.id + 1;
        let next_job = first_job + jobs.len() as u64;
        let mut changes = Vec::new(alloc);
        changes.push(RowChange::Put(Record::Pipeline(pipeline)))?;
        changes.push(RowChange::Put(Record::Next(Counter::Pipeline, next_pipeline)))?;
        changes.push(RowChange::Put(Record::Next(Counter::Job, next_job)))?;
        put_jobs(&mut changes, jobs)?;
        put_variables(&mut changes, variables)?;
        put_needs(&mut changes, needs)?;
        Ok(Changes::new(changes))
    }

    /// The pipeline is made, and shown with the statuses of its jobs, which have these rows (201). Its first job has this number. The claims
    /// are the resource groups for which its jobs must wait, at least those of the jobs.
    pub fn into_plan(
        self,
        alloc: Global,
        first_job: u64,
        claims: &[Claim],
        rows: &[BoardRow],
    ) -> Result<(Reply, Changes), AllocError>
        requires rows { length rows.now ≡ length self.jobs.items }
        requires pipeline { self.pipeline.id ≤ MAX_NUMBER }
        requires jobs { first_job + length self.jobs.items ≤ MAX_NUMBER + 1 }
        ensures { IfOk result (λ plan. plan ≡ pipelines.pipeline_created first_job (creation_view self) claims.now (map (λ r. r.row) rows.now)) }
    {
        let text = self.text(alloc, claims, rows)?;
        let changes = self.into_changes(alloc, first_job)?;
        Ok(created(text, changes))
    }
}
