//! The keywords that have a meaning, and those that are left out by name. The definitions cite these tables.

use ci_values::attempts::Cause;
use ci_values::when::When;

/// When a job runs that a rule takes in, or that the rule leaves it out.
#[derive(Clone, Copy)]
pub enum RuleWhen {
    Runs(When),
    Never,
}

/// A word of `when`.
#[derive(Clone, Copy)]
pub enum WhenWord {
    Runs(When),
    /// In rules alone.
    Never,
    /// Left out.
    Delayed,
}

/// A word of a retry's `when`.
#[derive(Clone, Copy)]
pub enum CauseWord {
    /// Each cause.
    Always,
    One(Cause),
}

/// A keyword of the top level.
#[derive(Clone, Copy)]
pub enum FileKeyword {
    Stages,
    Variables,
}

/// A keyword of a job whose value holds no expression.
#[derive(Clone, Copy)]
pub enum PlainJobKeyword {
    Script,
    Stage,
    Needs,
    When,
    AllowFailure,
    Retry,
    Tags,
    Timeout,
    ResourceGroup,
    Interruptible,
    Variables,
}

/// A keyword of a job.
#[derive(Clone, Copy)]
pub enum JobKeyword {
    Rules,
    Plain(PlainJobKeyword),
}

/// A keyword of a rule whose value is no expression.
#[derive(Clone, Copy)]
pub enum PlainRuleKeyword {
    When,
    AllowFailure,
    Variables,
}

/// A keyword of a rule.
#[derive(Clone, Copy)]
pub enum RuleKeyword {
    If,
    Plain(PlainRuleKeyword),
}

/// A keyword of a need.
#[derive(Clone, Copy)]
pub enum NeedKeyword {
    Job,
    Optional,
}

/// A keyword of a retry.
#[derive(Clone, Copy)]
pub enum RetryKeyword {
    Max,
    When,
}

/// A keyword of a job's `allow_failure`.
#[derive(Clone, Copy)]
pub enum AllowFailureKeyword {
    ExitCodes,
}

pub const WHENS: [(&str, WhenWord); 6] = [
    ("on_success", WhenWord::Runs(When::OnSuccess)),
    ("on_failure", WhenWord::Runs(When::OnFailure)),
    ("always", WhenWord::Runs(When::Always)),
    ("manual", WhenWord::Runs(When::Manual)),
    ("never", WhenWord::Never),
    ("delayed", WhenWord::Delayed),
];

pub const CAUSES: [(&str, CauseWord); 7] = [
    ("always", CauseWord::Always),
    ("unknown_failure", CauseWord::One(Cause::UnknownFailure)),
    ("script_failure", CauseWord::One(Cause::ScriptFailure)),
    ("api_failure", CauseWord::One(Cause::ApiFailure)),
    (
        "stuck_or_timeout_failure",
        CauseWord::One(Cause::StuckOrTimeoutFailure),
    ),
    (
        "runner_system_failure",
        CauseWord::One(Cause::RunnerSystemFailure),
    ),
    (
        "job_execution_timeout",
        CauseWord::One(Cause::JobExecutionTimeout),
    ),
];

pub const FILE_KEYWORDS: [(&str, FileKeyword); 2] = [
    ("stages", FileKeyword::Stages),
    ("variables", FileKeyword::Variables),
];

pub const FILE_LEFT_OUT: [&str; 9] = [
    "include",
    "default",
    "workflow",
    "image",
    "services",
    "cache",
    "before_script",
    "after_script",
    "pages",
];

pub const JOB_KEYWORDS: [(&str, JobKeyword); 12] = [
    ("script", JobKeyword::Plain(PlainJobKeyword::Script)),
    ("stage", JobKeyword::Plain(PlainJobKeyword::Stage)),
    ("needs", JobKeyword::Plain(PlainJobKeyword::Needs)),
    ("rules", JobKeyword::Rules),
    ("when", JobKeyword::Plain(PlainJobKeyword::When)),
    (
        "allow_failure",
        JobKeyword::Plain(PlainJobKeyword::AllowFailure),
    ),
    ("retry", JobKeyword::Plain(PlainJobKeyword::Retry)),
    ("tags", JobKeyword::Plain(PlainJobKeyword::Tags)),
    ("timeout", JobKeyword::Plain(PlainJobKeyword::Timeout)),
    (
        "resource_group",
        JobKeyword::Plain(PlainJobKeyword::ResourceGroup),
    ),
    (
        "interruptible",
        JobKeyword::Plain(PlainJobKeyword::Interruptible),
    ),
    ("variables", JobKeyword::Plain(PlainJobKeyword::Variables)),
];

pub const JOB_LEFT_OUT: [&str; 22] = [
    "extends",
    "parallel",
    "trigger",
    "environment",
    "artifacts",
    "cache",
    "services",
    "image",
    "release",
    "pages",
    "only",
    "except",
    "inherit",
    "id_tokens",
    "secrets",
    "dast_configuration",
    "before_script",
    "after_script",
    "start_in",
    "coverage",
    "dependencies",
    "hooks",
];

pub const RULE_KEYWORDS: [(&str, RuleKeyword); 4] = [
    ("if", RuleKeyword::If),
    ("when", RuleKeyword::Plain(PlainRuleKeyword::When)),
    (
        "allow_failure",
        RuleKeyword::Plain(PlainRuleKeyword::AllowFailure),
    ),
    ("variables", RuleKeyword::Plain(PlainRuleKeyword::Variables)),
];

pub const RULE_LEFT_OUT: [&str; 5] = ["changes", "exists", "needs", "interruptible", "start_in"];

pub const NEED_KEYWORDS: [(&str, NeedKeyword); 2] = [
    ("job", NeedKeyword::Job),
    ("optional", NeedKeyword::Optional),
];

pub const NEED_LEFT_OUT: [&str; 5] = ["project", "ref", "pipeline", "artifacts", "parallel"];

pub const RETRY_KEYWORDS: [(&str, RetryKeyword); 2] = [
    ("max", RetryKeyword::Max),
    ("when", RetryKeyword::When),
];

pub const RETRY_LEFT_OUT: [&str; 1] = ["exit_codes"];

pub const ALLOW_FAILURE_KEYWORDS: [(&str, AllowFailureKeyword); 1] = [(
    "exit_codes",
    AllowFailureKeyword::ExitCodes,
)];

pub const ALLOW_FAILURE_LEFT_OUT: [&str; 0] = [];
