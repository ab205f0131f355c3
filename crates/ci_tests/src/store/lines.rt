//! What a load answers, as a text: a line for each record, with its fields in the order of the columns.

use ci_machine::records::{
    Attempt, AttemptState, BoardRow, Cause, Demand, GroupMode, Holder, Job, JobOptions,
    JobVariable, Need, Pipeline, Project, RefKind, Runner, Variable, process_mode,
};
use ci_machine::text::{Bytes, Text, Texts};
use ci_store::fault::StoreFault;
use ci_values::when::{AllowFailure, Causes, When};
use std::alloc::Global;
use std::test::Fail;

/// A record that a load finds.
pub trait Shown: Drop {
    /// The number of the record, or that of its owner.
    fn number(&self) -> u64;

    fn line(&self, alloc: Global) -> Result<String, Fail>;
}

/// What a load answers.
#[derive(Drop)]
pub struct Answer {
    /// The lines of what was found, one behind the other with `; `, or the fault.
    pub text: String,
    /// The numbers of what was found.
    pub numbers: Vec<u64>,
}

impl Answer {
    fn nothing(alloc: Global) -> Answer {
        Answer {
            text: String::new(alloc),
            numbers: Vec::new(alloc),
        }
    }

    fn of_fault(alloc: Global, fault: StoreFault) -> Result<Answer, Fail> {
        let mut answer = Answer::nothing(alloc);
        answer.text.push_str(match fault {
            StoreFault::Memory => "no memory",
            StoreFault::Broken => "broken",
        })?;
        Ok(answer)
    }

    fn push<R: Shown>(&mut self, alloc: Global, record: &R) -> Result<(), Fail> {
        if !self.numbers.is_empty() {
            self.text.push_str("; ")?;
        }
        let line = record.line(alloc)?;
        self.text.push_str(line.as_str())?;
        self.numbers.push(record.number())?;
        Ok(())
    }

    /// Of a load of a record, if there is one.
    pub fn of_one<R: Shown>(
        alloc: Global,
        found: Result<Option<R>, StoreFault>,
    ) -> Result<Answer, Fail> {
        let mut answer = Answer::nothing(alloc);
        match found {
            Ok(Some(record)) => answer.push(alloc, &record)?,
            Ok(None) => (),
            Err(fault) => return Answer::of_fault(alloc, fault),
        }
        Ok(answer)
    }

    /// Of a load of a list.
    pub fn of_all<R: Shown>(
        alloc: Global,
        found: Result<Vec<R>, StoreFault>,
    ) -> Result<Answer, Fail> {
        let mut answer = Answer::nothing(alloc);
        match found {
            Ok(records) => {
                for record in records.as_slice() {
                    answer.push(alloc, record)?;
                }
            }
            Err(fault) => return Answer::of_fault(alloc, fault),
        }
        Ok(answer)
    }

    /// Of a number: the next one of a kind, or the size of a trace.
    pub fn of_number(alloc: Global, found: Result<u64, StoreFault>) -> Result<Answer, Fail> {
        match found {
            Ok(number) => {
                let mut answer = Answer::nothing(alloc);
                answer.text.push_str(number.to_string(alloc)?.as_str())?;
                answer.numbers.push(number)?;
                Ok(answer)
            }
            Err(fault) => Answer::of_fault(alloc, fault),
        }
    }

    /// Of a trace: how many bytes 255 it begins with, and the text behind them.
    pub fn of_bytes(alloc: Global, found: Result<Bytes, StoreFault>) -> Result<Answer, Fail> {
        match found {
            Ok(bytes) => {
                let mut answer = Answer::nothing(alloc);
                let (many, text) = bytes_text(bytes.as_slice());
                answer.text = format!(in alloc; "{many} {text}")?;
                Ok(answer)
            }
            Err(fault) => Answer::of_fault(alloc, fault),
        }
    }
}

fn or_dash(text: &Option<Text>) -> &str {
    match text {
        Some(text) => text.as_str(),
        None => "-",
    }
}

fn words(alloc: Global, texts: &Texts) -> Result<String, Fail> {
    let mut words = String::new(alloc);
    for text in texts.as_slice() {
        if !words.is_empty() {
            words.push_str(", ")?;
        }
        words.push_str(text.as_str())?;
    }
    Ok(words)
}

fn kind_text(kind: RefKind) -> &'static str {
    match kind {
        RefKind::Branch => "branch",
        RefKind::Tag => "tag",
    }
}

fn when_text(when: When) -> &'static str {
    match when {
        When::OnSuccess => "on_success",
        When::OnFailure => "on_failure",
        When::Always => "always",
        When::Manual => "manual",
    }
}

fn cause_text(cause: Cause) -> &'static str {
    match cause {
        Cause::UnknownFailure => "unknown_failure",
        Cause::ScriptFailure => "script_failure",
        Cause::ApiFailure => "api_failure",
        Cause::StuckOrTimeoutFailure => "stuck_or_timeout_failure",
        Cause::RunnerSystemFailure => "runner_system_failure",
        Cause::JobExecutionTimeout => "job_execution_timeout",
    }
}

/// The flags of the causes, in their order.
fn flags_text(alloc: Global, causes: Causes) -> Result<String, Fail> {
    let flags = [
        causes.unknown_failure,
        causes.script_failure,
        causes.api_failure,
        causes.stuck_or_timeout_failure,
        causes.runner_system_failure,
        causes.job_execution_timeout,
    ];
    let mut text = String::new(alloc);
    for flag in flags {
        text.push_str(if flag { "1" } else { "0" })?;
    }
    Ok(text)
}

fn allowed_text(alloc: Global, allowed: &AllowFailure) -> Result<String, Fail> {
    Ok(match allowed {
        AllowFailure::No => String::from_str(alloc, "no failure")?,
        AllowFailure::Yes => String::from_str(alloc, "any failure")?,
        AllowFailure::ExitCodes(codes) => format!(in alloc; "failure {:?}", codes.as_slice())?,
    })
}

fn options_text(alloc: Global, options: &JobOptions) -> Result<String, Fail> {
    let script = words(alloc, &options.script)?;
    let tags = words(alloc, &options.tags)?;
    let allowed = allowed_text(alloc, &options.part.allow_failure)?;
    let causes = flags_text(alloc, options.part.retry.causes)?;
    Ok(format!(in alloc;
        "[{}] {} s [{}] {} {} {} {} retry {} {} needs {}",
        script,
        options.timeout,
        tags,
        or_dash(&options.resource_group),
        options.interruptible,
        when_text(options.part.when),
        allowed,
        options.part.retry.max,
        causes,
        options.part.gives_needs
    )?)
}

fn state_text(alloc: Global, state: AttemptState) -> Result<String, Fail> {
    Ok(match state {
        AttemptState::Live => String::from_str(alloc, "live")?,
        AttemptState::Succeeded(exit) => format!(in alloc; "succeeded {exit:?}")?,
        AttemptState::Failed(cause, exit) => {
            format!(in alloc; "{} {exit:?}", cause_text(cause))?
        }
        AttemptState::Cancelled => String::from_str(alloc, "cancelled")?,
    })
}

/// How many bytes 255 come first, and the text behind them.
fn bytes_text(bytes: &[u8]) -> (usize, &str) {
    let many = bytes
        .iter()
        .position(|byte| *byte != 255)
        .unwrap_or(bytes.len());
    let (_, rest) = bytes.split_at(many.min(bytes.len()));
    match std::str::from_utf8(rest) {
        Ok(text) => (many, text),
        Err(_) => (many, "no text"),
    }
}

impl Shown for Project {
    fn number(&self) -> u64 {
        self.id
    }

    fn line(&self, alloc: Global) -> Result<String, Fail> {
        let (name, token) = (self.name.as_str(), self.token.as_str());
        let file = or_dash(&self.file);
        Ok(format!(in alloc; "{} {name} {token} {file}", self.id)?)
    }
}

impl Shown for Variable {
    fn number(&self) -> u64 {
        self.project
    }

    fn line(&self, alloc: Global) -> Result<String, Fail> {
        let (key, value) = (self.key.as_str(), self.value.as_str());
        Ok(format!(in alloc; "{} {key}={value}", self.project)?)
    }
}

impl Shown for Runner {
    fn number(&self) -> u64 {
        self.id
    }

    fn line(&self, alloc: Global) -> Result<String, Fail> {
        let (name, token) = (self.name.as_str(), self.token.as_str());
        let tags = words(alloc, &self.tags)?;
        Ok(format!(in alloc;
            "{} {name} {token} {:?} [{tags}] {} {}",
            self.id, self.project, self.untagged, self.paused
        )?)
    }
}

impl Shown for Pipeline {
    fn number(&self) -> u64 {
        self.id
    }

    fn line(&self, alloc: Global) -> Result<String, Fail> {
        Ok(format!(in alloc;
            "{} {} {} {} {} {}",
            self.id,
            self.project,
            self.git_ref.as_str(),
            kind_text(self.kind),
            self.source.as_str(),
            self.created.seconds()
        )?)
    }
}

impl Shown for Job {
    fn number(&self) -> u64 {
        self.id
    }

    fn line(&self, alloc: Global) -> Result<String, Fail> {
        let (name, stage) = (self.name.as_str(), self.stage.as_str());
        let options = options_text(alloc, &self.options)?;
        Ok(format!(in alloc;
            "{} {} {} {name} {stage} {options} {} {} {}",
            self.id, self.pipeline, self.position, self.played, self.cancelled, self.set_aside
        )?)
    }
}

impl Shown for Demand {
    fn number(&self) -> u64 {
        self.job
    }

    fn line(&self, alloc: Global) -> Result<String, Fail> {
        let tags = words(alloc, &self.tags)?;
        let group = or_dash(&self.resource_group);
        Ok(format!(in alloc; "{} {} [{tags}] {group}", self.job, self.pipeline)?)
    }
}

impl Shown for JobVariable {
    fn number(&self) -> u64 {
        self.job
    }

    fn line(&self, alloc: Global) -> Result<String, Fail> {
        let (key, value) = (self.key.as_str(), self.value.as_str());
        Ok(format!(in alloc; "{} {key}={value}", self.job)?)
    }
}

impl Shown for Attempt {
    fn number(&self) -> u64 {
        self.id
    }

    fn line(&self, alloc: Global) -> Result<String, Fail> {
        let state = state_text(alloc, self.state)?;
        Ok(format!(in alloc;
            "{} {} {} {} {} {} {state}",
            self.id,
            self.job,
            self.runner,
            self.token.as_str(),
            self.granted.seconds(),
            self.seen.seconds()
        )?)
    }
}

impl Shown for Need {
    fn number(&self) -> u64 {
        self.job
    }

    fn line(&self, alloc: Global) -> Result<String, Fail> {
        Ok(format!(in alloc; "{} for {}", self.job, self.pred)?)
    }
}

impl Shown for BoardRow {
    fn number(&self) -> u64 {
        self.job
    }

    fn line(&self, alloc: Global) -> Result<String, Fail> {
        let row = self.row;
        Ok(format!(in alloc;
            "{} {} {} {} {}",
            self.job,
            row.status.as_str(),
            row.opens,
            row.failed,
            row.barred
        )?)
    }
}

impl Shown for Holder {
    fn number(&self) -> u64 {
        self.attempt
    }

    fn line(&self, alloc: Global) -> Result<String, Fail> {
        let group = self.group.as_str();
        Ok(format!(in alloc; "{} {group} {}", self.project, self.attempt)?)
    }
}

impl Shown for GroupMode {
    fn number(&self) -> u64 {
        self.project
    }

    fn line(&self, alloc: Global) -> Result<String, Fail> {
        let (group, mode) = (self.group.as_str(), process_mode(Some(self.order)));
        Ok(format!(in alloc; "{} {group} {mode}", self.project)?)
    }
}
