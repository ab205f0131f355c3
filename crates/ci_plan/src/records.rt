//! What is told of a pipeline before it runs.

ghost use Rattle.std.specs.Prelude.{◌≡◌};
ghost use Rattle.ci_plan.specs.Faults.{code_of};

use ci_graph_layout::GraphCode;
use ci_machine::text::{Text, Texts};
use ci_values::items::Items;
use ci_values::when::When;

/// A job that the pipeline has.
#[derive(Drop)]
pub struct PlannedJob {
    pub name: Text,
    pub stage: Text,
    pub when: When,
    /// The number of the rule that took it in, from 1. A job without rules has none.
    pub rule: Option<usize>,
    /// The names of the jobs that it waits for.
    pub waits_for: Texts,
}

/// A job of the file that the pipeline doesn't have.
#[derive(Drop)]
pub struct LeftOut {
    pub name: Text,
    /// The number of its rule that says `never`, from 1. Without one none of its rules holds.
    pub rule: Option<usize>,
}

/// A need of a job, by the names of both.
#[derive(Drop)]
pub struct NamedNeed {
    pub job: Text,
    pub need: Text,
}

/// Why there is no pipeline, with the jobs that it is about.
#[derive(Drop)]
pub enum Fault {
    /// G1: these needs aren't optional, and name no job of the pipeline.
    Unmet(Items<NamedNeed>),
    /// G2: these needs name a job of a later stage.
    Later(Items<NamedNeed>),
    /// G3: each of these jobs waits for the next one, and the last one for the first.
    Circle(Texts),
    /// G4: these jobs are all that would be there, and they are of `.pre` and `.post`; or there are none.
    NoWork(Texts),
    /// G5: these jobs give more than 50 needs.
    ManyNeeds(Texts),
}

/// A rule that compares a variable which nothing defines.
#[derive(Drop)]
pub struct Note {
    pub job: Text,
    /// The number of the rule, from 1.
    pub rule: usize,
    pub variable: Text,
}

/// What a pipeline would be.
#[derive(Drop)]
pub struct Plan {
    /// Its jobs, stage by stage and in each stage by the file; or why there is no pipeline.
    pub jobs: Result<Items<PlannedJob>, Fault>,
    /// The jobs that it doesn't have, in the order of the file.
    pub left_out: Items<LeftOut>,
}

impl Fault {
    /// Its code.
    pub fn code(&self) -> GraphCode
        ensures { result ≡ code_of self.now }
    {
        match self {
            Fault::Unmet(_) => GraphCode::G1,
            Fault::Later(_) => GraphCode::G2,
            Fault::Circle(_) => GraphCode::G3,
            Fault::NoWork(_) => GraphCode::G4,
            Fault::ManyNeeds(_) => GraphCode::G5,
        }
    }
}
