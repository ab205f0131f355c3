//! The included jobs, and where they stand.

ghost use Rattle.std.specs.Prelude.{◌≡◌, ℕ, List, IfOk, map};
ghost use Rattle.std.specs.HashMap as hash;
ghost use Rattle.std.specs.Str.{bytes_eq};
ghost use Rattle.ci_config.specs.Prelude.{AreAnswered, config_view, words_view};
ghost use Rattle.ci_graph_layout.specs.Layout.{rank, ranks, place_of};
ghost use Rattle.ci_graph_layout.specs.Places.{IsPlaced, IsLineup, stages_of, jobs_of, never_falls_from};
ghost use Rattle.ci_graph_layout.specs.Searches.{all_looks};
ghost use Rattle.ci_graph_layout.specs.View.{given_view, included_view};

use crate::given::Given;
use crate::inclusion::{Decided, IncludedJob, decide_all};
use crate::lineup::lineup;
use ci_config::Config;
use ci_expr::Answers;
use std::alloc::{AllocError, Global};
use std::collections::HashMap;

/// The included jobs in their order, and where each stands.
#[derive(Drop)]
pub struct Lineup<'a, 't> {
    /// Those of the file.
    pub stages: &'a [&'a str],
    /// All jobs of the file, in its order, and what decides whether the pipeline has them.
    pub decided: Vec<Decided<'a, 't>>,
    pub jobs: Vec<IncludedJob<'a, 't>>,
    /// The position of the first job of each name.
    pub places: HashMap<&'a str, usize>,
    /// The place of each job's stage among the stages.
    pub ranks: Vec<usize>,
    /// Whether these never fall, as where no stage stands twice in the file.
    pub in_order: bool,
}

/// Where the jobs stand, by their names.
fn places<'a, 't>(
    alloc: Global,
    jobs: &[IncludedJob<'a, 't>],
) -> Result<HashMap<&'a str, usize>, AllocError>
    ensures { IfOk result (λ found. (q : List ℕ) → hash.get_by (λ k. bytes_eq q k.now) found ≡ place_of (map included_view jobs.now) q) }
{
    let mut found = HashMap::new(alloc);
    for (i, job) in jobs.iter().enumerate() {
        found.entry(job.job.name)?.or_insert(i);
    }
    Ok(found)
}

/// The place of a stage among the stages.
pub fn rank(stages: &[&str], stage: &str) -> usize
    ensures { result ≡ rank (words_view stages.now) stage.now }
{
    for (i, other) in stages.iter().enumerate() {
        if *other == stage {
            return i;
        }
    }
    stages.len()
}

/// The place of each job's stage.
fn ranks(alloc: Global, stages: &[&str], jobs: &[IncludedJob]) -> Result<Vec<usize>, AllocError>
    ensures { IfOk result (λ found. found.items ≡ ranks (words_view stages.now) (map included_view jobs.now)) }
{
    let mut found = Vec::new(alloc);
    for job in jobs {
        found.push(rank(stages, job.job.stage))?;
    }
    Ok(found)
}

/// Is no number below one before it?
fn never_falls(numbers: &[usize]) -> bool
    ensures { result ≡ never_falls_from 0 numbers.now }
{
    let mut least = 0;
    for number in numbers {
        if *number < least {
            return false;
        }
        least = *number;
    }
    true
}

impl<'a, 't> Lineup<'a, 't> {
    /// The jobs that a file includes where these variables are given. What its rules look for was looked for before. Errors: memory was refused.
    pub fn new(
        alloc: Global,
        given: &Given<'a>,
        config: &'a Config<'t>,
        answers: &Answers,
    ) -> Result<Lineup<'a, 't>, AllocError>
        requires { AreAnswered answers.now (all_looks (given_view given.now) config.now) }
        ensures placed { IfOk result IsPlaced }
        ensures lineup { IfOk result (IsLineup (given_view given.now) (config_view config.now)) }
    {
        let stages = config.stages.as_slice();
        let decided = decide_all(alloc, given, config, answers)?;
        let jobs = lineup(alloc, stages, &decided)?;
        let places = places(alloc, &jobs)?;
        let ranks = ranks(alloc, stages, &jobs)?;
        let in_order = never_falls(&ranks);
        Ok(Lineup {
            stages,
            decided,
            jobs,
            places,
            ranks,
            in_order,
        })
    }

    /// The place of a job's stage among the stages.
    pub fn rank_of(&self, job: &IncludedJob) -> usize
        ensures { result ≡ rank (stages_of self.now) (included_view job.now).job.stage }
    {
        rank(self.stages, job.job.stage)
    }

    /// Where the first job of a name stands, if there is one.
    pub fn place_of(&self, name: &str) -> Option<usize>
        requires { IsPlaced self.now }
        ensures { result ≡ place_of (jobs_of self.now) name.now }
    {
        match self.places.get(&name) {
            Some(place) => Some(*place),
            None => None,
        }
    }
}
