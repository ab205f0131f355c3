//! What is remembered of a store.

ghost use Rattle.ci_machine_steps.specs.Prelude.{Kept, cleared, written};
ghost use Rattle.ci_memory_boards.specs.Order.{InOrder};
ghost use Rattle.ci_memory.specs.Right.{IsRight};

use crate::leases::Leases;
use crate::modes::Modes;
use crate::newest::Newest;
use crate::numbers::NextNumbers;
use crate::pipelines::after::open_after;
use crate::pipelines::open::Open;
use crate::projects::Projects;
use crate::runners::Runners;
use ci_memory_boards::boards::Boards;
use ci_memory_queue::lines::{Lines, lines_after};
use ci_memory_queue::queue::{Queue, queue_after};
use ci_store::delta::Delta;
use std::marker::Model;

/// What is remembered of a store. None of it need be.
#[derive(Drop)]
pub struct Memory {
    pub(crate) numbers: NextNumbers,
    /// Those that were looked up last.
    pub(crate) projects: Projects,
    pub(crate) runners: Runners,
    /// The process modes of resource groups.
    pub(crate) modes: Modes,
    /// The pending jobs, by what they ask of a runner.
    pub(crate) queue: Option<Queue>,
    /// The jobs that wait for a resource group.
    pub(crate) lines: Option<Lines>,
    /// Until when no lease is over.
    pub(crate) leases: Leases,
    /// The unfinished pipelines, and of which there is no newer one.
    pub(crate) pipelines: Option<Open>,
    /// The newest pipelines of projects.
    pub(crate) newest: Newest,
    /// The records of some pipelines.
    pub(crate) boards: Boards,
}

impl Model for Memory {
    ghost use Rattle.ci_memory.specs.Remembered.{Remembered};

    ghost Value = { Remembered };

    ghost view = { λ m. record { numbers = m.numbers; projects = m.projects; runners = m.runners; modes = m.modes; queue = m.queue; lines = m.lines; leases = m.leases; pipelines = m.pipelines; newest = m.newest; boards = m.boards } };
}

impl Memory {
    /// Nothing is remembered.
    pub fn nothing() -> Memory
        ensures { (k : Kept) → InOrder k → IsRight result k }
    {
        Memory {
            numbers: NextNumbers::unknown(),
            projects: Projects::unknown(),
            runners: Runners::Unknown,
            modes: Modes::Unknown,
            queue: None,
            lines: None,
            leases: Leases::unknown(),
            pipelines: None,
            newest: Newest::unknown(),
            boards: Boards::nothing(),
        }
    }

    /// What is remembered after a commit.
    pub(crate) fn after(self, delta: &Delta) -> Memory
        ensures { (k : Kept) → IsRight self k → IsRight result (written delta.now.changes delta.now.rows delta.now.indexes (cleared delta.now.cleared k)) }
    {
        let Memory {
            numbers,
            projects,
            runners,
            modes,
            queue,
            lines,
            leases,
            pipelines,
            newest,
            boards,
        } = self;
        Memory {
            numbers: numbers.after(delta.changes()),
            projects: projects.after(delta.changes()),
            runners: runners.after(delta.changes()),
            modes: modes.after(delta.changes()),
            queue: queue_after(queue, delta.changes(), delta.rows()),
            lines: lines_after(lines, delta.changes(), delta.rows()),
            leases: leases.after(delta.changes()),
            pipelines: open_after(pipelines, delta.changes(), delta.indexes()),
            newest: newest.after(delta.changes()),
            boards: boards.after(delta.changes(), delta.rows(), delta.cleared()),
        }
    }
}
