//! Which job waits for which.

ghost use Rattle.std.specs.Prelude.{◌≡◌, ◌++◌, IfOk, OnOk, map};
ghost use Rattle.ci_config.specs.Prelude.{need_view};
ghost use Rattle.ci_graph_layout.specs.Layout.{below, needed, predecessors, pairs};
ghost use Rattle.ci_graph_layout.specs.Places.{IsPlaced, stages_of, jobs_of, never_falls_from};
ghost use Rattle.ci_graph_layout.specs.View.{included_view};

use crate::inclusion::IncludedJob;
use crate::places::Lineup;
use ci_config::Need;
use std::alloc::{AllocError, Global};

/// A position of a predecessor, and that of the job that waits for it.
pub type Pairs = Vec<(usize, usize)>;

/// Puts a pair behind those that are there for each of these positions of predecessors.
fn put_pairs(pairs: &mut Pairs, places: &[usize], job: usize) -> Result<(), AllocError>
    ensures { OnOk result (pairs.new.items ≡ pairs.old.items ++ map (λ i. (i, job)) places.now) }
{
    for place in places {
        pairs.push((*place, job))?;
    }
    Ok(())
}

/// The positions of the jobs of lower rank. Where the ranks never fall these stand first.
fn below(
    alloc: Global,
    ranks: &[usize],
    in_order: bool,
    own: usize,
) -> Result<Vec<usize>, AllocError>
    requires { in_order ≡ never_falls_from 0 ranks.now }
    ensures { IfOk result (λ places. places.items ≡ below own 0 ranks.now) }
{
    let mut places = Vec::new(alloc);
    for (i, other) in ranks.iter().enumerate() {
        if *other < own {
            places.push(i)?;
        } else if in_order {
            return Ok(places);
        }
    }
    Ok(places)
}

impl<'a, 't> Lineup<'a, 't> {
    /// The positions of those that the needs name, if they are included.
    fn needed(&self, alloc: Global, needs: &[Need]) -> Result<Vec<usize>, AllocError>
        requires { IsPlaced self.now }
        ensures { IfOk result (λ places. places.items ≡ needed (jobs_of self.now) (map need_view needs.now)) }
    {
        let mut places = Vec::new(alloc);
        for need in needs {
            if let Some(place) = self.place_of(need.job) {
                places.push(place)?;
            }
        }
        Ok(places)
    }

    /// The positions of a job's predecessors.
    pub fn predecessors(&self, alloc: Global, job: &IncludedJob) -> Result<Vec<usize>, AllocError>
        requires { IsPlaced self.now }
        ensures { IfOk result (λ places. places.items ≡ predecessors (stages_of self.now) (jobs_of self.now) (included_view job.now)) }
    {
        match &job.job.needs {
            Some(needs) => self.needed(alloc, needs),
            None => below(alloc, &self.ranks, self.in_order, self.rank_of(job)),
        }
    }

    /// Each predecessor with the job that waits for it. A job that gives needs waits for those of them that are included, and
    /// any other for all jobs of earlier stages.
    pub fn pairs(&self, alloc: Global) -> Result<Pairs, AllocError>
        requires { IsPlaced self.now }
        ensures { IfOk result (λ found. found.items ≡ pairs (stages_of self.now) (jobs_of self.now)) }
    {
        let mut found = Vec::new(alloc);
        for (i, job) in self.jobs.iter().enumerate() {
            let places = self.predecessors(alloc, job)?;
            put_pairs(&mut found, &places, i)?;
        }
        Ok(found)
    }
}
