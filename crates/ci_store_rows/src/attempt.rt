//! Attempts as rows.

ghost use Rattle.std.specs.Prelude.{◌≡◌, IfSome};
ghost use Rattle.ci_store_rows.specs.Rows.{cause_number};
ghost use Rattle.ci_store_rows.specs.Load.{HasState};

use crate::columns::{state_numbers, text};
use crate::read::{Loaded, Stored, has_columns, moment_at, text_at};
use crate::texts;
use ci_machine::records::{Attempt, AttemptState, Cause};
use ci_store::fault::StoreFault;
use ci_store::values::number;
use ci_store::write::put;
use sqlite::types::ToSql;
use sqlite::{Alter, Row, Transaction};
use std::alloc::Global;

fn read_cause(number: u32) -> Option<Cause>
    ensures { IfSome result (λ k. number ≡ cause_number k) }
{
    match number {
        0 => Some(Cause::UnknownFailure),
        1 => Some(Cause::ScriptFailure),
        2 => Some(Cause::ApiFailure),
        3 => Some(Cause::StuckOrTimeoutFailure),
        4 => Some(Cause::RunnerSystemFailure),
        5 => Some(Cause::JobExecutionTimeout),
        _ => None,
    }
}

fn read_state(state: u32, cause: Option<u32>, exit: Option<u32>) -> Option<AttemptState>
    ensures { IfSome result (HasState state cause exit) }
{
    match (state, cause, exit) {
        (0, None, None) => Some(AttemptState::Live),
        (1, None, exit) => Some(AttemptState::Succeeded(exit)),
        (2, Some(cause), exit) => Some(AttemptState::Failed(read_cause(cause)?, exit)),
        (3, None, None) => Some(AttemptState::Cancelled),
        _ => None,
    }
}

impl Loaded for Attempt {
    ghost use Rattle.std.specs.Prelude.{◌≡◌};
    ghost use Rattle.ci_store_rows.specs.Rows.{attempt_row};

    ghost is_row = { λ row a. row ≡ attempt_row a };

    fn read(_: Global, row: &Row) -> Result<Attempt, StoreFault> {
        has_columns(row, 9)?;
        let state = read_state(row.get(6)?, row.get(7)?, row.get(8)?);
        Ok(Attempt {
            id: row.get(0)?,
            job: row.get(1)?,
            runner: row.get(2)?,
            granted: moment_at(row, 4)?,
            seen: moment_at(row, 5)?,
            state: state.ok_or(StoreFault::Broken)?,
            token: text_at(row, 3)?,
        })
    }
}

impl Stored for Attempt {
    ghost use Rattle.ci_machine.specs.State.{with_record};
    ghost use Rattle.ci_machine.specs.declared.change.Record.TheVariants as variant;
    ghost use Rattle.ci_store_rows.specs.Changes.{in_state};

    ghost puts = { λ x. in_state (with_record (variant.Attempt x)) };

    fn put<S: Alter>(
        &self,
        tx: &mut Transaction<'_, S>,
        _: Global,
        is_new: bool,
    ) -> Result<(), StoreFault> {
        let id = number(self.id)?;
        let job = number(self.job)?;
        let runner = number(self.runner)?;
        let granted = number(self.granted.seconds())?;
        let seen = number(self.seen.seconds())?;
        let (state, cause, exit) = state_numbers(self.state);
        put(
            tx,
            is_new,
            texts::UPDATE_ATTEMPT,
            texts::INSERT_ATTEMPT,
            &[
                id,
                job,
                runner,
                text(&self.token),
                granted,
                seen,
                state.to_sql(),
                cause.to_sql(),
                exit.to_sql(),
            ],
        )
    }
}
