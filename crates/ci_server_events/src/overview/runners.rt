//! The runners, as a report tells them.

ghost use Rattle.std.specs.Prelude.{◌≡◌, ◌==◌, length, filter, count_by, take, map};
ghost use Rattle.ci_machine_steps.specs.Prelude.{live_attempts, runner_row, runner_rows};
ghost use Rattle.ci_store.specs.Prelude.{LoadsBy};

use ci_machine::records::{Attempt, Runner};
use ci_machine::report::RunnerRow;
use ci_store::fault::StoreFault;
use ci_store::store::Store;
use std::alloc::Global;

/// The runners, by number. Of each its last attempt is looked up, by an index; its live attempts are counted among all that are live.
/// Errors: the store's.
pub fn runner_rows<T: Store>(alloc: Global, store: &mut T) -> Result<Vec<RunnerRow>, StoreFault>
    ensures { LoadsBy T.honest T.holds T.leaves store.old store.new result (λ k told. told.items ≡ runner_rows k.state) }
{
    let runners = store.runners()?;
    let live = store.live_attempts()?;
    let mut told = Vec::new(alloc);
    for runner in runners.as_slice() {
        let one = row_of(store, runner, live.as_slice())?;
        told.push(one)?;
    }
    Ok(told)
}

/// A runner, by the attempts that are live.
fn row_of<T: Store>(
    store: &mut T,
    runner: &Runner,
    live: &[Attempt],
) -> Result<RunnerRow, StoreFault>
    ensures { LoadsBy T.honest T.holds T.leaves store.old store.new result (λ k told. live.now ≡ live_attempts k.state → told ≡ runner_row k.state runner.now) }
{
    let last = store.last_attempt_by(runner.id)?;
    let name = runner.name.clone()?;
    Ok(RunnerRow {
        runner: runner.id,
        paused: runner.paused,
        live: attempts_by(live, runner.id),
        last_grant: last.map(|attempt| attempt.granted),
        name,
    })
}

fn count_by(attempts: &[Attempt], runner: u64) -> usize
    ensures { result ≡ count_by (λ a. a.runner == runner) attempts.now }
{
    attempts.iter().filter(|one| one.runner == runner).count()
}

/// How many of the attempts are a runner's.
fn attempts_by(attempts: &[Attempt], runner: u64) -> u64
    ensures { result ≡ length (filter (λ a. a.runner == runner) attempts.now) }
{
    count_by(attempts, runner) as u64
}
