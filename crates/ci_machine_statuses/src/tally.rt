//! The facts of jobs, by their attempts.

ghost use Rattle.std.specs.Prelude.{◌≡◌, ◌+◌, ◌^◌, ◌<◌, ◌≤◌, ℕ, [], map, length, slice_set, All, IfOk, IfErr};
ghost use Rattle.std.specs.Ordering.{nat_cmp};
ghost use Rattle.std.specs.List.Sorted.{IsStrictlySortedBy};
ghost use Rattle.ci_machine_statuses.specs.declared.fault.StatusFault.TheVariants.{Memory};
ghost use Rattle.ci_machine_statuses.specs.declared.tally.Tally.{Tally};
ghost use Rattle.ci_machine_statuses.specs.Lookups.{tally_at, tally_of, facts_by};

use crate::fault::StatusFault;
use crate::places::place_of;
use ci_board::facts::Facts;
use ci_machine::records::{Attempt, AttemptState, Job};
use std::alloc::{AllocError, Global};

/// How many attempts a job has, and how the last of them stands.
#[derive(Clone, Copy, Drop)]
pub struct Tally {
    pub count: u64,
    pub last: Option<AttemptState>,
}

impl Tally {
    /// No attempt.
    fn new() -> Tally
        ensures { result ≡ record { count = 0; last = None } }
    {
        Tally {
            count: 0,
            last: None,
        }
    }

    /// With one attempt more, which stands so.
    fn with(self, state: AttemptState) -> Tally
        requires { self.count + 1 < 2 ^ 64 }
        ensures { result ≡ record { count = self.count + 1; last = Some state } }
    {
        Tally {
            count: self.count + 1,
            last: Some(state),
        }
    }

    /// The facts of a job with these attempts. Errors: more attempts are set aside than there are.
    fn facts(self, job: &Job) -> Result<Facts, StatusFault>
        ensures facts { IfOk result (λ f. f ≡ facts_by self job.now) }
        ensures fault { IfErr result (λ _. self.count < job.now.set_aside) }
    {
        match self.count.checked_sub(job.set_aside) {
            Some(attempts) => Ok(Facts {
                last: self.last,
                attempts,
                cancelled: job.cancelled,
                played: job.played,
            }),
            None => Err(StatusFault::Broken),
        }
    }
}

/// Counts one attempt of the job at a place.
fn count(tallies: &mut [Tally], place: usize, state: AttemptState)
    requires place { place < length tallies.old }
    requires few { (tally_at tallies.old place).count + 1 < 2 ^ 64 }
    ensures { tallies.new ≡ slice_set tallies.old place (record { count = (tally_at tallies.old place).count + 1; last = Some state }) }
{
    tallies[place] = tallies[place].with(state);
}

/// Counts attempts, each of the job that has it among the jobs with these numbers.
fn count_all(tallies: &mut [Tally], numbers: &[u64], attempts: &[Attempt])
    requires long { length tallies.old ≡ length numbers.now }
    requires none { (place : ℕ) → (tally_at tallies.old place).count ≡ 0 }
    ensures long { length tallies.new ≡ length numbers.now }
    ensures counted { IsStrictlySortedBy nat_cmp numbers.now → tallies.old ≡ map (tally_of []) numbers.now → tallies.new ≡ map (tally_of attempts.now) numbers.now }
{
    let _most = attempts.len();
    for attempt in attempts {
        if let Some(place) = place_of(numbers, attempt.job) {
            count(tallies, place, attempt.state);
        }
    }
}

/// The tallies of the jobs with these numbers.
pub fn tallies(
    alloc: Global,
    numbers: &[u64],
    attempts: &[Attempt],
) -> Result<Vec<Tally>, AllocError>
    ensures long { IfOk result (λ v. length v.items ≡ length numbers.now) }
    ensures tallies { IfOk result (λ v. IsStrictlySortedBy nat_cmp numbers.now → v.items ≡ map (tally_of attempts.now) numbers.now) }
{
    let mut tallies = vec![in alloc; Tally::new(); numbers.len()]?;
    count_all(tallies.as_mut_slice(), numbers, attempts);
    Ok(tallies)
}

/// The facts of jobs with these tallies. Errors: memory was refused, or more attempts of a job are set aside than it has.
pub fn facts(alloc: Global, jobs: &[Job], tallies: &[Tally]) -> Result<Vec<Facts>, StatusFault>
    requires { length tallies.now ≡ length jobs.now }
    ensures long { IfOk result (λ v. length v.items ≡ length jobs.now) }
    ensures facts { IfOk result (λ v. (tally : ℕ → Tally) → tallies.now ≡ map (λ j. tally j.id) jobs.now → v.items ≡ map (λ j. facts_by (tally j.id) j) jobs.now) }
    ensures fault { IfErr result (λ fault. (tally : ℕ → Tally) → tallies.now ≡ map (λ j. tally j.id) jobs.now → All (λ j. j.set_aside ≤ (tally j.id).count) jobs.now → fault ≡ Memory) }
{
    let mut facts = Vec::with_capacity(alloc, jobs.len())?;
    for j in 0..jobs.len() {
        facts.push(tallies[j].facts(&jobs[j])?)?;
    }
    Ok(facts)
}
