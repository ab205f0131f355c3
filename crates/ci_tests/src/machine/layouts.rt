//! The last numbers that the jobs of a pipeline may have.

use ci_machine::moment::Moment;
use ci_machine::records::{RefKind, Source};
use ci_machine::request::{NewPipeline, PipelineVariables};
use ci_machine::text::Text;
use ci_machine_pipelines::layouts::lay_out;
use std::alloc::Global;
use std::test::Fail;

const TWO_JOBS: &str =
    "build:\n  stage: build\n  script: make\nunit:\n  script: [make test]\n  timeout: 5m\n";

/// The next number of a job, and whether two jobs can have theirs. No store has the last one.
const NUMBERS: &[(u64, bool)] = &[
    (9_007_199_254_740_990, true),
    (18_446_744_073_709_551_615, false),
];

/// A pipeline of the project 7 for `main`.
fn asked(alloc: Global) -> Result<NewPipeline, Fail> {
    Ok(NewPipeline {
        project: 7,
        token: Text::copy_of(alloc, "p7")?,
        git_ref: Text::copy_of(alloc, "main")?,
        kind: RefKind::Branch,
        source: Source::Api,
        variables: PipelineVariables::new(Vec::new(alloc)),
    })
}

/// Can two jobs have their numbers from this one on?
fn are_numbered(
    alloc: Global,
    new: &NewPipeline,
    first: u64,
    moment: Moment,
) -> Result<bool, Fail> {
    match lay_out(alloc, TWO_JOBS, &[], new, 1, first, moment) {
        Ok(made) => Ok(made.is_some()),
        Err(_fault) => Err("not laid out")?,
    }
}

#[test]
fn the_last_numbers_are_taken(rt: HostRuntime) -> Result<(), Fail> {
    let alloc = rt.alloc();
    let new = asked(alloc)?;
    let moment = Moment::new(1000).ok_or("moment")?;
    for (first, taken) in NUMBERS {
        let is_taken = are_numbered(alloc, &new, *first, moment)?;
        assert!(rt; is_taken == *taken, "{first}");
    }
    Ok(())
}
