//! Why jobs give no pipeline.

ghost use Rattle.std.specs.Prelude.{◌≡◌, map, unwrap_or, []};
ghost use Rattle.ci_config.specs.Prelude.{job_view, need_view};
ghost use Rattle.ci_graph_layout.specs.Fault.{any, is_work, needs_of, needs_many, is_unmet, lacks_need, is_later, names_later, waits_for_later, first_fault};
ghost use Rattle.ci_graph_layout.specs.Layout.{ranks};
ghost use Rattle.ci_graph_layout.specs.Places.{IsPlaced, stages_of, jobs_of};
ghost use Rattle.ci_graph_layout.specs.View.{included_view};

use crate::fault::GraphCode;
use crate::inclusion::IncludedJob;
use crate::limits::MAX_NEEDS;
use crate::places::Lineup;
use ci_config::{JobSpec, Need};

/// Is the job in neither `.pre` nor `.post`?
fn is_work(job: &IncludedJob) -> bool
    ensures { result ≡ is_work (included_view job.now) }
{
    job.job.stage != ".pre" && job.job.stage != ".post"
}

/// The needs that a job gives.
fn needs_of<'a, 't>(job: &'a JobSpec<'t>) -> &'a [Need<'t>]
    ensures { map need_view result.now ≡ unwrap_or (job_view job.now).needs [] }
{
    match &job.needs {
        Some(needs) => needs.as_slice(),
        None => &[],
    }
}

impl<'a, 't> IncludedJob<'a, 't> {
    /// The needs that it gives.
    pub fn needs(&self) -> &'a [Need<'t>]
        ensures { map need_view result.now ≡ needs_of (included_view self.now) }
    {
        needs_of(self.job)
    }

    /// Does it give too many needs, repeats counted?
    pub fn needs_many(&self) -> bool
        ensures { result ≡ needs_many (included_view self.now) }
    {
        MAX_NEEDS < self.needs().len()
    }
}

impl<'a, 't> Lineup<'a, 't> {
    /// Is some job in neither `.pre` nor `.post`?
    fn has_work(&self) -> bool
        ensures { result ≡ any is_work (jobs_of self.now) }
    {
        for job in &self.jobs {
            if is_work(job) {
                return true;
            }
        }
        false
    }

    /// Does some job give too many needs?
    fn has_many(&self) -> bool
        ensures { result ≡ any needs_many (jobs_of self.now) }
    {
        for job in &self.jobs {
            if job.needs_many() {
                return true;
            }
        }
        false
    }

    /// Is the need not optional, and names no included job?
    pub fn is_unmet(&self, need: &Need) -> bool
        requires { IsPlaced self.now }
        ensures { result ≡ is_unmet (jobs_of self.now) (need_view need.now) }
    {
        !need.optional && self.place_of(need.job).is_none()
    }

    /// Does one of these needs name no included job, and isn't optional?
    fn has_unmet(&self, needs: &[Need]) -> bool
        requires { IsPlaced self.now }
        ensures { result ≡ any (is_unmet (jobs_of self.now)) (map need_view needs.now) }
    {
        for need in needs {
            if self.is_unmet(need) {
                return true;
            }
        }
        false
    }

    fn lacks_need(&self, job: &IncludedJob) -> bool
        requires { IsPlaced self.now }
        ensures { result ≡ lacks_need (jobs_of self.now) (included_view job.now) }
    {
        self.has_unmet(job.needs())
    }

    /// Does some job need one that isn't included?
    fn has_lacking(&self) -> bool
        requires { IsPlaced self.now }
        ensures { result ≡ any (lacks_need (jobs_of self.now)) (jobs_of self.now) }
    {
        for job in &self.jobs {
            if self.lacks_need(job) {
                return true;
            }
        }
        false
    }

    /// Is the job at a position, if there is one, of a later stage than this rank's?
    fn is_later(&self, own: usize, place: Option<usize>) -> bool
        requires { IsPlaced self.now }
        ensures { result ≡ is_later (ranks (stages_of self.now) (jobs_of self.now)) own place }
    {
        match place {
            Some(place) => match self.ranks.get(place) {
                Some(other) => own < *other,
                None => false,
            },
            None => false,
        }
    }

    /// Does the need name an included job of a later stage than this rank's?
    pub fn names_later(&self, own: usize, need: &Need) -> bool
        requires { IsPlaced self.now }
        ensures { result ≡ names_later (stages_of self.now) (jobs_of self.now) own (need_view need.now) }
    {
        self.is_later(own, self.place_of(need.job))
    }

    /// Does one of these needs name an included job of a later stage than this rank's?
    fn has_later(&self, own: usize, needs: &[Need]) -> bool
        requires { IsPlaced self.now }
        ensures { result ≡ any (names_later (stages_of self.now) (jobs_of self.now) own) (map need_view needs.now) }
    {
        for need in needs {
            if self.names_later(own, need) {
                return true;
            }
        }
        false
    }

    fn waits_for_later(&self, job: &IncludedJob) -> bool
        requires { IsPlaced self.now }
        ensures { result ≡ waits_for_later (stages_of self.now) (jobs_of self.now) (included_view job.now) }
    {
        self.has_later(self.rank_of(job), job.needs())
    }

    /// Does some job need one of a later stage?
    fn has_waiting(&self) -> bool
        requires { IsPlaced self.now }
        ensures { result ≡ any (waits_for_later (stages_of self.now) (jobs_of self.now)) (jobs_of self.now) }
    {
        for job in &self.jobs {
            if self.waits_for_later(job) {
                return true;
            }
        }
        false
    }

    /// The first fault but for that of a circle.
    pub(crate) fn first_fault(&self) -> Option<GraphCode>
        requires { IsPlaced self.now }
        ensures { result ≡ first_fault (stages_of self.now) (jobs_of self.now) }
    {
        if !self.has_work() {
            return Some(GraphCode::G4);
        }
        if self.has_many() {
            return Some(GraphCode::G5);
        }
        if self.has_lacking() {
            return Some(GraphCode::G1);
        }
        if self.has_waiting() {
            return Some(GraphCode::G2);
        }
        None
    }
}
