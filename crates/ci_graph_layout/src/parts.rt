//! The graph of a plan's jobs.

ghost use Rattle.std.specs.Prelude.{◌≡◌, ◌<◌, ◌++◌, IfOk, map};
ghost use Rattle.ci_graph.specs.JobGraph.{HasPairs};
ghost use Rattle.ci_graph_layout.specs.Parts.{no_retry, is_given, job_part, parts, CanBeGraph};
ghost use Rattle.ci_graph_layout.specs.Plans.{plan_view};
ghost use Rattle.ci_graph_layout.specs.View.{included_view, lineup_view};

use crate::inclusion::IncludedJob;
use crate::planning::PipelinePlan;
use ci_graph::graph::Graph;
use ci_graph::part::{GraphFault, Part};
use ci_values::when::{Causes, Retry};
use std::alloc::{AllocError, Global};
use std::sync::ledger::{Blank, Ledger};

/// How often a job is tried again that doesn't say it: never.
fn no_retry() -> Retry
    ensures { result ≡ no_retry }
{
    Retry {
        max: 0,
        causes: Causes {
            unknown_failure: false,
            script_failure: false,
            api_failure: false,
            stuck_or_timeout_failure: false,
            runner_system_failure: false,
            job_execution_timeout: false,
        },
    }
}

impl<'a, 't> IncludedJob<'a, 't> {
    /// What its status depends on.
    pub fn part(&self) -> Result<Part, AllocError>
        ensures { IfOk result (λ p. p ≡ job_part (included_view self.now)) }
    {
        Ok(Part {
            when: self.when,
            allow_failure: self.allow_failure.clone()?,
            retry: self.job.retry.unwrap_or(no_retry()),
            gives_needs: self.job.needs.is_some(),
        })
    }
}

impl<'a, 't> PipelinePlan<'a, 't> {
    /// The part of each job, by position.
    pub fn parts(&self, alloc: Global) -> Result<Vec<Part>, AllocError>
        ensures { IfOk result (λ found. found.items ≡ parts (lineup_view self.now.jobs)) }
    {
        let mut found = Vec::new(alloc);
        for job in &self.jobs {
            found.push(job.part()?)?;
        }
        Ok(found)
    }

    /// The graph of the jobs; the blank makes its meter. A plan has no circle, so nothing but memory can be wanting.
    pub fn graph<L: Ledger>(&self, alloc: Global, blank: Blank) -> Result<Graph<L>, AllocError>
        requires name { blank.name ≡ L.name }
        requires ledger { blank.parts ≡ L.parts }
        requires some { 0 < blank.parts }
        requires plan { CanBeGraph (plan_view self.now) }
        ensures parts { IfOk result (λ g. g.parts ≡ parts (lineup_view self.now.jobs)) }
        ensures pairs { IfOk result (λ g. HasPairs g self.now.pairs.items) }
        ensures meter { IfOk result (λ g. g.meter ≡ 0) }
    {
        let parts = self.parts(alloc)?;
        match Graph::<L>::new(alloc, blank, parts, &self.pairs) {
            Ok(graph) => Ok(graph),
            Err(GraphFault::Memory) => Err(AllocError),
            Err(GraphFault::G3) => unreachable!(),
        }
    }
}
