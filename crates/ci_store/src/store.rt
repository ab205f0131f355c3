//! A store of the machine's state, by what it holds and by what a stop may leave of it.

ghost use Rattle.std.specs.Prelude.{◌≡◌, length, take};
ghost use Rattle.ci_machine.specs.Prelude.{Kept, cleared, written, attempts_of, jobs_of, project_at, project_with, project_variables, variable_at, runner_at, runner_with};
ghost use Rattle.ci_machine.specs.Prelude.{pipeline_at, job_at, demand_at, variables_of, attempt_at, last_attempt_by, live_attempts, trace_of, next_of, newest_of, needs_within};
ghost use Rattle.ci_machine.specs.Prelude.{attempts_within, rows_within, row_at, rows_with, holder_at, holders_in, mode_at, newer_in};
ghost use Rattle.ci_store.specs.Made.{made_before, AreSome};
ghost use Rattle.ci_store.specs.Store.{LoadsBy, Ends};

use crate::delta::Delta;
use crate::fault::StoreFault;
use ci_board::facts::Status;
use ci_machine::change::Counter;
use ci_machine::moment::Moment;
use ci_machine::records::{
    Attempt, BoardRow, Demand, GroupMode, Holder, Job, JobVariable, Need, Pipeline, Project,
    Runner, Variable,
};
use ci_machine::text::{Bytes, Text};

/// A store of the machine's state, and of the rows of its jobs' statuses. Its loads give what the state has; one commit makes
/// the changes of an event. It knows nothing of what makes the rows right.
pub trait Store {
    /// The disk has given back what was written to it.
    ghost honest: { Self → Type 0 };

    /// The store keeps this state with these rows, and a stop leaves them alone. Whether it is open still may be in doubt: then its next
    /// call asks, and answers `Memory` where memory is refused to the question, and `Broken` where it isn't open.
    ghost holds: { Self → Kept → Type 0 };

    /// A stop leaves one of the two, each a state with rows, and nothing else.
    ghost leaves: { Self → Kept → Kept → Type 0 };

    /// The next number of a kind.
    fn next(&mut self, counter: Counter) -> Result<u64, StoreFault>
        ensures { LoadsBy honest holds leaves self.old self.new result (λ k n. n ≡ next_of counter k.state.next) };

    /// The project with a number.
    fn project(&mut self, id: u64) -> Result<Option<Project>, StoreFault>
        ensures { LoadsBy honest holds leaves self.old self.new result (λ k p. p ≡ project_at k.state id) };

    /// The project with a token.
    fn project_with(&mut self, token: &Text) -> Result<Option<Project>, StoreFault>
        ensures { LoadsBy honest holds leaves self.old self.new result (λ k p. p ≡ project_with k.state token.now) };

    /// The variables of a project that was found, by key: so its number isn't over the greatest integer of SQL.
    fn variables_of(&mut self, project: u64) -> Result<Vec<Variable>, StoreFault>
        ensures { LoadsBy honest holds leaves self.old self.new result (λ k vs. vs.items ≡ project_variables k.state project) };

    /// The variable with a key, of a project that was found.
    fn variable(&mut self, project: u64, key: &Text) -> Result<Option<Variable>, StoreFault>
        ensures { LoadsBy honest holds leaves self.old self.new result (λ k v. v ≡ variable_at k.state project key.now) };

    /// The process mode of a resource group of a project that was found. A group that is unordered has none.
    fn mode(&mut self, project: u64, group: &Text) -> Result<Option<GroupMode>, StoreFault>
        ensures { LoadsBy honest holds leaves self.old self.new result (λ k m. m ≡ mode_at k.state project group.now) };

    /// The process modes of all resource groups that aren't unordered, by the project and then by the bytes of the group.
    fn modes(&mut self) -> Result<Vec<GroupMode>, StoreFault>
        ensures { LoadsBy honest holds leaves self.old self.new result (λ k ms. ms.items ≡ k.state.modes) };

    /// The runner with a number.
    fn runner(&mut self, id: u64) -> Result<Option<Runner>, StoreFault>
        ensures { LoadsBy honest holds leaves self.old self.new result (λ k r. r ≡ runner_at k.state id) };

    /// The runner with a token.
    fn runner_with(&mut self, token: &Text) -> Result<Option<Runner>, StoreFault>
        ensures { LoadsBy honest holds leaves self.old self.new result (λ k r. r ≡ runner_with k.state token.now) };

    /// All runners, by number.
    fn runners(&mut self) -> Result<Vec<Runner>, StoreFault>
        ensures { LoadsBy honest holds leaves self.old self.new result (λ k runners. runners.items ≡ k.state.runners) };

    /// The pipeline with a number.
    fn pipeline(&mut self, id: u64) -> Result<Option<Pipeline>, StoreFault>
        ensures { LoadsBy honest holds leaves self.old self.new result (λ k p. p ≡ pipeline_at k.state id) };

    /// The job with a number.
    fn job(&mut self, id: u64) -> Result<Option<Job>, StoreFault>
        ensures { LoadsBy honest holds leaves self.old self.new result (λ k j. j ≡ job_at k.state id) };

    /// What the job with a number asks of a runner.
    fn demand(&mut self, id: u64) -> Result<Option<Demand>, StoreFault>
        ensures { LoadsBy honest holds leaves self.old self.new result (λ k d. d ≡ demand_at k.state id) };

    /// The variables of a job, by key.
    fn job_variables(&mut self, job: u64) -> Result<Vec<JobVariable>, StoreFault>
        ensures { LoadsBy honest holds leaves self.old self.new result (λ k vs. vs.items ≡ variables_of k.state job) };

    /// The attempt with a number.
    fn attempt(&mut self, id: u64) -> Result<Option<Attempt>, StoreFault>
        ensures { LoadsBy honest holds leaves self.old self.new result (λ k a. a ≡ attempt_at k.state id) };

    /// The attempts of a job, by number.
    fn attempts_of(&mut self, job: u64) -> Result<Vec<Attempt>, StoreFault>
        ensures { LoadsBy honest holds leaves self.old self.new result (λ k attempts. attempts.items ≡ attempts_of k.state job) };

    /// The last attempt of a runner that was found: the one of the greatest number.
    fn last_attempt_by(&mut self, runner: u64) -> Result<Option<Attempt>, StoreFault>
        ensures { LoadsBy honest holds leaves self.old self.new result (λ k a. a ≡ last_attempt_by k.state runner) };

    /// The attempts that have not ended, by number.
    fn live_attempts(&mut self) -> Result<Vec<Attempt>, StoreFault>
        ensures { LoadsBy honest holds leaves self.old self.new result (λ k attempts. attempts.items ≡ live_attempts k.state) };

    /// The trace of an attempt that was looked up.
    fn trace_of(&mut self, attempt: u64) -> Result<Bytes, StoreFault>
        ensures { LoadsBy honest holds leaves self.old self.new result (λ k bytes. bytes ≡ trace_of k.state attempt) };

    /// The size of the trace of an attempt that was looked up, in bytes; found from its last row alone.
    fn trace_size(&mut self, attempt: u64) -> Result<u64, StoreFault>
        ensures { LoadsBy honest holds leaves self.old self.new result (λ k size. size ≡ length (trace_of k.state attempt)) };

    /// The jobs of a pipeline, by number.
    fn jobs_of(&mut self, pipeline: u64) -> Result<Vec<Job>, StoreFault>
        ensures { LoadsBy honest holds leaves self.old self.new result (λ k jobs. jobs.items ≡ jobs_of k.state pipeline) };

    /// The needs of the jobs from the first number to the last one, by the job and then by the one that it waits for.
    fn needs_within(&mut self, first: u64, last: u64) -> Result<Vec<Need>, StoreFault>
        ensures { LoadsBy honest holds leaves self.old self.new result (λ k needs. needs.items ≡ needs_within first last k.state.needs) };

    /// The attempts of the jobs from the first number to the last one, by number.
    fn attempts_within(&mut self, first: u64, last: u64) -> Result<Vec<Attempt>, StoreFault>
        ensures { LoadsBy honest holds leaves self.old self.new result (λ k attempts. attempts.items ≡ attempts_within first last k.state.attempts) };

    /// The rows of the jobs from the first number to the last one, by job.
    fn rows_within(&mut self, first: u64, last: u64) -> Result<Vec<BoardRow>, StoreFault>
        ensures { LoadsBy honest holds leaves self.old self.new result (λ k rows. rows.items ≡ rows_within first last k.board) };

    /// The row of a job.
    fn row(&mut self, job: u64) -> Result<Option<BoardRow>, StoreFault>
        ensures { LoadsBy honest holds leaves self.old self.new result (λ k row. row ≡ row_at job k.board) };

    /// The rows with a status, by job.
    fn rows_with(&mut self, status: Status) -> Result<Vec<BoardRow>, StoreFault>
        ensures { LoadsBy honest holds leaves self.old self.new result (λ k rows. rows.items ≡ rows_with status k.board) };

    /// The attempt that holds a resource group of a project that was found.
    fn holder(&mut self, project: u64, group: &Text) -> Result<Option<Holder>, StoreFault>
        ensures { LoadsBy honest holds leaves self.old self.new result (λ k h. h ≡ holder_at project group.now k.holders) };

    /// The rows of the resource groups of a project that was found which are held, by the bytes of the group.
    fn holders_in(&mut self, project: u64) -> Result<Vec<Holder>, StoreFault>
        ensures { LoadsBy honest holds leaves self.old self.new result (λ k hs. hs.items ≡ holders_in project k.holders) };

    /// The first newer pipeline of the same project, for the same branch or the same tag, as a pipeline that was found.
    fn newer_of(&mut self, pipeline: &Pipeline) -> Result<Option<Pipeline>, StoreFault>
        ensures { LoadsBy honest holds leaves self.old self.new result (λ k p. p ≡ newer_in k.state pipeline.now) };

    /// The newest pipelines of a project that was found, newest first: at most so many. Errors: so many are over the greatest integer of SQL.
    fn newest(&mut self, project: u64, count: u64) -> Result<Vec<Pipeline>, StoreFault>
        ensures { LoadsBy honest holds leaves self.old self.new result (λ k ps. ps.items ≡ take count (newest_of k.state project)) };

    /// The first so many pipelines, by number, of those that were made before a moment. It reads pipelines by number until it has so
    /// many, and so all of them where there are fewer. Errors: so many are over the greatest integer of SQL.
    fn pipelines_before(&mut self, before: Moment, count: u64) -> Result<Vec<Pipeline>, StoreFault>
        ensures { LoadsBy honest holds leaves self.old self.new result (λ k ps. ps.items ≡ take count (made_before before k.state.pipelines)) };

    /// At most so many of the pipelines that were made before a moment, whichever: all of them, where they are fewer. It reads no
    /// others. Errors: so many are over the greatest integer of SQL.
    fn some_before(&mut self, before: Moment, count: u64) -> Result<Vec<Pipeline>, StoreFault>
        ensures { LoadsBy honest holds leaves self.old self.new result (λ k ps. AreSome count (made_before before k.state.pipelines) ps.items) };

    /// Spends a delta: removes the rows of statuses that it clears, makes its changes of records, then puts its rows, and then changes
    /// the groups that are held, all of it or nothing. Which pipelines aren't finished is kept as the delta says it, and not looked up.
    /// Errors: Memory, nothing was committed; Broken, the store failed, or it didn't commit for want of memory and had none for the
    /// question whether it is open.
    fn commit(&mut self, delta: Delta) -> Result<(), StoreFault>
        ensures was_honest { honest self.new → honest self.old }
        ensures ends { honest self.new → (k : Kept) → holds self.old k → Ends result (holds self.new (written delta.changes delta.rows delta.indexes (cleared delta.cleared k))) (holds self.new k) (leaves self.new k (written delta.changes delta.rows delta.indexes (cleared delta.cleared k))) };

    // What it keeps is what a stop leaves.
    ghost held_is_left: { (store : Self) (k : Kept) → holds store k → leaves store k k };
}
