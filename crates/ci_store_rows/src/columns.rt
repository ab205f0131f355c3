//! The values of columns.

ghost use Rattle.std.specs.Prelude.{◌≡◌};
ghost use Rattle.ci_store.specs.Prelude.{owned, or_null, Text as Words};
ghost use Rattle.ci_store_rows.specs.Stands.{counter_key};
ghost use Rattle.ci_store_rows.specs.Rows.{kind_number, source_number, cause_number, state_number, cause_in, exit_in, order_number};

use ci_machine::change::Counter;
use ci_machine::records::{AttemptState, Cause, GroupOrder, RefKind, Source};
use ci_machine::text::Text;
use sqlite::types::{ToSql, ValueRef};

/// The greatest integer of SQL.
pub const LAST_INTEGER: u64 = 9_223_372_036_854_775_807;

/// The key of a next number in the table `meta`.
pub fn counter_key(counter: Counter) -> &'static str
    ensures { result.now ≡ counter_key counter }
{
    match counter {
        Counter::Project => "next_project",
        Counter::Runner => "next_runner",
        Counter::Pipeline => "next_pipeline",
        Counter::Job => "next_job",
        Counter::Attempt => "next_attempt",
    }
}

/// The column `kind` of a pipeline.
pub fn kind_number(kind: RefKind) -> u32
    ensures { result ≡ kind_number kind }
{
    match kind {
        RefKind::Branch => 0,
        RefKind::Tag => 1,
    }
}

/// The column `source` of a pipeline.
pub fn source_number(source: Source) -> u32
    ensures { result ≡ source_number source }
{
    match source {
        Source::Push => 0,
        Source::Web => 1,
        Source::Schedule => 2,
        Source::Api => 3,
        Source::Trigger => 4,
    }
}

/// The column `cause` of an attempt that failed.
pub fn cause_number(cause: Cause) -> u32
    ensures { result ≡ cause_number cause }
{
    match cause {
        Cause::UnknownFailure => 0,
        Cause::ScriptFailure => 1,
        Cause::ApiFailure => 2,
        Cause::StuckOrTimeoutFailure => 3,
        Cause::RunnerSystemFailure => 4,
        Cause::JobExecutionTimeout => 5,
    }
}

/// The columns `state`, `cause` and `exit` of an attempt.
pub fn state_numbers(state: AttemptState) -> (u32, Option<u32>, Option<u32>)
    ensures { result ≡ (state_number state, cause_in state, exit_in state) }
{
    match state {
        AttemptState::Live => (0, None, None),
        AttemptState::Succeeded(exit) => (1, None, exit),
        AttemptState::Failed(cause, exit) => (2, Some(cause_number(cause)), exit),
        AttemptState::Cancelled => (3, None, None),
    }
}

/// The column `mode` of a resource group that isn't unordered.
pub fn order_number(order: GroupOrder) -> u32
    ensures { result ≡ order_number order }
{
    match order {
        GroupOrder::OldestFirst => 1,
        GroupOrder::NewestReadyFirst => 2,
    }
}

/// A text as SQL has it.
pub fn text(text: &Text) -> ValueRef<'_>
    ensures { owned result ≡ Words text.now }
{
    text.as_str().to_sql()
}

/// A text or NULL.
pub fn optional_text(text: &Option<Text>) -> ValueRef<'_>
    ensures { owned result ≡ or_null Words text.now }
{
    match text {
        Some(text) => text.as_str().to_sql(),
        None => ValueRef::Null,
    }
}
