//! Whose turn it is in a resource group, by its process mode.

use crate::machine::decisions::{grouped, made_of, runner, text};
use ci_machine::choose::{choose, goes_before, is_eligible, order_of, resource_free};
use ci_machine::records::{AttemptState, GroupMode, GroupOrder, QueuedJob, WaitingJob};
use std::alloc::{AllocError, Global};
use std::test::Fail;

const OLDEST: Option<GroupOrder> = Some(GroupOrder::OldestFirst);

const NEWEST: Option<GroupOrder> = Some(GroupOrder::NewestReadyFirst);

/// The mode of a resource group of a project, if it isn't unordered.
fn modes(
    alloc: Global,
    project: u64,
    group: &'static str,
    order: Option<GroupOrder>,
) -> Result<Vec<GroupMode>, AllocError> {
    let mut modes = Vec::new(alloc);
    if let Some(order) = order {
        let group = text(alloc, group)?;
        modes.push(GroupMode {
            project,
            group,
            order,
        })?;
    }
    Ok(modes)
}

/// A job that waits: its project, its resource group, its pipeline, and whether it is pending.
type Waits = (u64, &'static str, u64, bool);

fn waiting(alloc: Global, waits: Waits) -> Result<WaitingJob, AllocError> {
    let (project, group, pipeline, pending) = waits;
    let group = text(alloc, group)?;
    Ok(WaitingJob {
        project,
        group,
        pipeline,
        pending,
    })
}

/// A pending job of a pipeline of project 1, in its group `prod`.
fn pending(alloc: Global, id: u64, pipeline: u64) -> Result<QueuedJob, AllocError> {
    let mut queued = grouped(alloc, id, 1, Some("prod"))?;
    queued.job.pipeline = pipeline;
    Ok(queued)
}

/// The order of the group `prod` of project 1, a job that waits, and whether a pending job of the project's pipeline 5 in that group is free.
const TURNS: &[(Option<GroupOrder>, Waits, bool)] = &[
    (None, (1, "prod", 4, true), true),
    (None, (1, "prod", 6, true), true),
    (OLDEST, (1, "prod", 4, false), false),
    (OLDEST, (1, "prod", 4, true), false),
    (OLDEST, (1, "prod", 5, true), true),
    (OLDEST, (1, "prod", 6, true), true),
    (OLDEST, (2, "prod", 4, true), true),
    (OLDEST, (1, "test", 4, true), true),
    (NEWEST, (1, "prod", 6, true), false),
    (NEWEST, (1, "prod", 6, false), true),
    (NEWEST, (1, "prod", 5, true), true),
    (NEWEST, (1, "prod", 4, true), true),
    (NEWEST, (2, "prod", 6, true), true),
    (NEWEST, (1, "test", 6, true), true),
];

#[test]
fn a_job_has_its_turn_or_waits(rt: HostRuntime) -> Result<(), Fail> {
    let alloc = rt.alloc();
    let runner = runner(alloc, None, false)?;
    let queued = pending(alloc, 9, 5)?;
    for (order, waits, free) in TURNS {
        let modes = modes(alloc, 1, "prod", *order)?;
        let modes = modes.as_slice();
        let waiting = &[waiting(alloc, *waits)?];
        assert!(rt; resource_free(&queued, &[], modes, waiting) == *free);
        assert!(rt; is_eligible(&queued, &[], modes, waiting, &runner) == *free);
    }
    Ok(())
}

/// The project and the group whose mode is `oldest_first`, and whether a job of project 1 in `prod` is free while one of an older pipeline waits.
const ELSEWHERE: &[(u64, &'static str, bool)] = &[
    (1, "prod", false),
    (2, "prod", true),
    (1, "test", true),
];

#[test]
fn another_groups_mode_does_not_count(rt: HostRuntime) -> Result<(), Fail> {
    let alloc = rt.alloc();
    let queued = pending(alloc, 9, 5)?;
    let waiting = &[waiting(alloc, (1, "prod", 4, true))?];
    for (project, group, free) in ELSEWHERE {
        let modes = modes(alloc, *project, group, OLDEST)?;
        assert!(rt; resource_free(&queued, &[], modes.as_slice(), waiting) == *free);
    }
    Ok(())
}

/// The orders of a group.
const ORDERS: &[Option<GroupOrder>] = &[None, OLDEST, NEWEST];

#[test]
fn a_live_attempt_holds_it_in_each_mode(rt: HostRuntime) -> Result<(), Fail> {
    let alloc = rt.alloc();
    let queued = pending(alloc, 9, 5)?;
    // a job that runs doesn't wait: where it is of another group, nothing keeps this one
    let other = &[made_of(alloc, 7, 1, Some("test"), AttemptState::Live)?];
    let own = &[made_of(alloc, 7, 1, Some("prod"), AttemptState::Live)?];
    for order in ORDERS {
        let modes = modes(alloc, 1, "prod", *order)?;
        let modes = modes.as_slice();
        assert!(rt; resource_free(&queued, other, modes, &[]));
        assert!(rt; !resource_free(&queued, own, modes, &[]));
    }
    Ok(())
}

/// The order of the group of two pending jobs, 3 of the pipeline 4 and 5 of the pipeline 6, and the one that a runner is given.
const GIVEN: &[(Option<GroupOrder>, u64)] = &[(None, 3), (OLDEST, 3), (NEWEST, 5)];

#[test]
fn the_job_whose_turn_it_is(rt: HostRuntime) -> Result<(), Fail> {
    let alloc = rt.alloc();
    let runner = runner(alloc, None, false)?;
    let queue = &[pending(alloc, 3, 4)?, pending(alloc, 5, 6)?];
    let waiting = &[
        waiting(alloc, (1, "prod", 4, true))?,
        waiting(alloc, (1, "prod", 6, true))?,
    ];
    for (order, number) in GIVEN {
        let modes = modes(alloc, 1, "prod", *order)?;
        let found = match choose(queue, &[], modes.as_slice(), waiting, &runner) {
            Some(queued) => queued.job.id,
            None => 0,
        };
        assert!(rt; found == *number);
    }
    Ok(())
}

#[test]
fn who_goes_before(rt: HostRuntime) -> Result<(), Fail> {
    let alloc = rt.alloc();
    let prod = text(alloc, "prod")?;
    let modes = modes(alloc, 1, "prod", NEWEST)?;
    assert!(rt; order_of(modes.as_slice(), 1, &prod) == NEWEST);
    assert!(rt; order_of(modes.as_slice(), 2, &prod).is_none());
    let created = waiting(alloc, (1, "prod", 4, false))?;
    assert!(rt; goes_before(&created, GroupOrder::OldestFirst, 5));
    assert!(rt; !goes_before(&created, GroupOrder::NewestReadyFirst, 3));
    Ok(())
}
