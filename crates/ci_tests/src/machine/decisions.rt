//! Each public call of the machine on its happy path, with what it answers worked out by hand.

use ci_board::facts::Status;
use ci_machine::change::{Changes, Counter, Record, RowChange};
use ci_machine::choose::{choose, is_eligible, is_free, may_run, resource_free};
use ci_machine::lease::{Lease, accept_piece, cause, due, finish, is_over, renew};
use ci_machine::moment::Moment;
use ci_machine::records::{
    Attempt, AttemptState, AttemptWithJob, Cause, Claim, Job, JobOptions, Pipeline,
    PipelineWithStatus, QueuedJob, RefKind, Runner, Source,
};
use ci_machine::redundant::{is_bound_to, is_newer_of, is_redundant, is_unfinished, redundant};
use ci_machine::reply::{Body, Code, Detail, FaultCode, HttpStatus, Reply};
use ci_machine::report::ShownStatus;
use ci_machine::text::{Bytes, Text, Texts};
use std::alloc::{AllocError, Global};
use std::test::Fail;

fn at(seconds: u64) -> Result<Moment, Fail> {
    Ok(Moment::new(seconds).ok_or("moment")?)
}

pub fn text(alloc: Global, text: &str) -> Result<Text, AllocError> {
    Text::copy_of(alloc, text)
}

/// An attempt granted at 1000, last heard of at a moment.
fn attempt(alloc: Global, id: u64, seen: u64, state: AttemptState) -> Result<Attempt, Fail> {
    Ok(Attempt {
        id,
        job: id,
        runner: 1,
        token: text(alloc, "j1")?,
        granted: at(1000)?,
        seen: at(seen)?,
        state,
    })
}

/// The time limit of a job in seconds, a moment, and whether the lease of an attempt last heard of at 1050 is over then.
const OVER: &[(u32, u64, bool)] = &[
    (3600, 1169, false),
    (3600, 1170, true),
    (60, 1059, false),
    (60, 1060, true),
];

#[test]
fn a_lease_is_over_or_renewed(rt: HostRuntime) -> Result<(), Fail> {
    let live = attempt(rt.alloc(), 1, 1050, AttemptState::Live)?;
    for (limit, seconds, over) in OVER {
        let now = at(*seconds)?;
        assert!(rt; is_over(&live, *limit, now) == *over, "{limit} {seconds}");
        assert!(rt;
            renew(&live, *limit, now).is_ok() != *over,
            "{limit} {seconds}"
        );
    }
    let heard = renew(&live, 3600, at(1005)?).ok().ok_or("over")?;
    assert!(rt; heard.seconds() == 1050 && heard.later(at(1051)?).seconds() == 1051);
    Ok(())
}

/// A trace's size, where a piece begins and how long it is, and the size after it.
const PIECES: &[(u64, u64, u64, Option<u64>)] = &[
    (0, 0, 5, Some(5)),
    (5, 0, 5, None),
    (4_194_300, 4_194_300, 4, Some(4_194_304)),
    (4_194_300, 4_194_300, 5, None),
];

#[test]
fn a_piece_is_accepted_or_not(rt: HostRuntime) -> Result<(), Fail> {
    let live = attempt(rt.alloc(), 1, 1050, AttemptState::Live)?;
    let now = at(1060)?;
    for (size, from, count, after) in PIECES {
        let found = accept_piece(&live, 3600, now, *size, *from, *count).ok();
        assert!(rt; found == *after, "{size} {from} {count}");
    }
    Ok(())
}

/// An exit code, and whether with it a failure is what the ended attempt was told already.
const EXITS: &[(Option<u32>, bool)] = &[(Some(3), true), (Some(4), false), (None, false)];

#[test]
fn an_attempt_ends_once(rt: HostRuntime) -> Result<(), Fail> {
    let state = AttemptState::Failed(Cause::ScriptFailure, Some(3));
    let ended = attempt(rt.alloc(), 2, 1050, state)?;
    let now = at(9000)?;
    for (exit, is_repeat) in EXITS {
        let last = AttemptState::Failed(Cause::UnknownFailure, *exit);
        let after = finish(ended.clone()?, 3600, now, last).ok();
        assert!(rt; after.is_some() == *is_repeat);
        if let Some(after) = after {
            let is_as_it_was = matches!(
                after.state,
                AttemptState::Failed(Cause::ScriptFailure, Some(3))
            );
            assert!(rt; after.id == 2 && is_as_it_was);
        }
    }
    Ok(())
}

/// A moment, and whether a success is accepted then of an attempt last heard of at 1050.
const ENDS: &[(u64, bool)] = &[(1169, true), (1170, false)];

#[test]
fn a_live_attempt_ends(rt: HostRuntime) -> Result<(), Fail> {
    let live = attempt(rt.alloc(), 3, 1050, AttemptState::Live)?;
    let last = AttemptState::Succeeded(Some(0));
    for (seconds, accepted) in ENDS {
        let after = finish(live.clone()?, 3600, at(*seconds)?, last).ok();
        assert!(rt; after.is_some() == *accepted, "{seconds}");
        if let Some(after) = after {
            let has_ended = matches!(after.state, AttemptState::Succeeded(Some(0)));
            assert!(rt; after.id == 3 && after.seen.seconds() == 1050 && has_ended);
        }
    }
    Ok(())
}

/// Leases of attempts granted at 1000: the attempt's number, when it was last heard of, its time limit, and why it ends. The last
/// two are at the moment, and one second past it, at which the time limit and the silence end a lease at once.
const LEASES: &[(u64, u64, u32, Cause)] = &[
    (4, 1100, 3600, Cause::StuckOrTimeoutFailure),
    (7, 1050, 3600, Cause::StuckOrTimeoutFailure),
    (9, 1050, 60, Cause::JobExecutionTimeout),
    (11, 1150, 270, Cause::JobExecutionTimeout),
    (12, 1150, 271, Cause::StuckOrTimeoutFailure),
];

fn live_leases(alloc: Global) -> Result<Vec<Lease>, Fail> {
    let mut leases = Vec::new(alloc);
    for (id, seen, limit, _) in LEASES {
        let attempt = attempt(alloc, *id, *seen, AttemptState::Live)?;
        leases.push(Lease {
            attempt,
            limit: *limit,
        })?;
    }
    Ok(leases)
}

/// A moment, and the number of the attempt that is due, or 0, and why it ends.
const MOMENTS: &[(u64, u64, Option<Cause>)] = &[
    (1059, 0, None),
    (1060, 9, Some(Cause::JobExecutionTimeout)),
    (1170, 7, Some(Cause::StuckOrTimeoutFailure)),
    (1220, 4, Some(Cause::StuckOrTimeoutFailure)),
];

#[test]
fn what_is_due(rt: HostRuntime) -> Result<(), Fail> {
    let leases = live_leases(rt.alloc())?;
    for (seconds, number, cause) in MOMENTS {
        let (found, why) = match due(leases.as_slice(), at(*seconds)?) {
            Some((lease, why)) => (lease.attempt.id, Some(why)),
            None => (0, None),
        };
        assert!(rt; found == *number && why == *cause, "{seconds}");
    }
    Ok(())
}

#[test]
fn why_a_lease_ends(rt: HostRuntime) -> Result<(), Fail> {
    let leases = live_leases(rt.alloc())?;
    for (lease, (id, _, _, why)) in leases.iter().zip(LEASES) {
        assert!(rt; cause(lease) == *why, "{id}");
    }
    Ok(())
}

fn job(id: u64, name: Text, stage: Text, options: JobOptions) -> Job {
    Job {
        id,
        pipeline: 1,
        position: 0,
        name,
        stage,
        options,
        played: false,
        cancelled: false,
        set_aside: 0,
    }
}

fn queued(alloc: Global, id: u64, project: u64) -> Result<QueuedJob, AllocError> {
    let name = text(alloc, "build")?;
    let stage = text(alloc, "build")?;
    let options = JobOptions::plain(alloc, Texts::new(Vec::new(alloc)));
    let job = job(id, name, stage, options);
    Ok(QueuedJob { job, project })
}

pub fn runner(alloc: Global, project: Option<u64>, paused: bool) -> Result<Runner, AllocError> {
    Ok(Runner {
        id: 1,
        name: text(alloc, "r")?,
        token: text(alloc, "r1")?,
        project,
        tags: Texts::new(Vec::new(alloc)),
        untagged: true,
        paused,
    })
}

/// The jobs 3 of project 1 and 5 of project 2.
fn queue(alloc: Global) -> Result<Vec<QueuedJob>, AllocError> {
    let mut queue = Vec::new(alloc);
    queue.push(queued(alloc, 3, 1)?)?;
    queue.push(queued(alloc, 5, 2)?)?;
    Ok(queue)
}

/// A runner's project, whether it is paused, and the number of the job that it is given, or 0.
const RUNNERS: &[(Option<u64>, bool, u64)] = &[
    (None, false, 3),
    (Some(1), false, 3),
    (Some(2), false, 5),
    (Some(3), false, 0),
    (None, true, 0),
];

#[test]
fn choices(rt: HostRuntime) -> Result<(), Fail> {
    let alloc = rt.alloc();
    let queue = queue(alloc)?;
    for (project, paused, number) in RUNNERS {
        let runner = runner(alloc, *project, *paused)?;
        let found = match choose(queue.as_slice(), &[], &[], &[], &runner) {
            Some(queued) => queued.job.id,
            None => 0,
        };
        assert!(rt; found == *number);
    }
    Ok(())
}

/// Whether the runners of that table may be given the job 5, of project 2.
const GIVEN: &[bool] = &[true, false, true, false, false];

#[test]
fn who_may_run_it(rt: HostRuntime) -> Result<(), Fail> {
    let alloc = rt.alloc();
    let queued = queued(alloc, 5, 2)?;
    for ((project, paused, _), given) in RUNNERS.iter().zip(GIVEN) {
        let runner = runner(alloc, *project, *paused)?;
        assert!(rt; may_run(&runner, queued.project, &[]) == *given);
        assert!(rt; is_eligible(&queued, &[], &[], &[], &runner) == *given);
    }
    Ok(())
}

fn texts(alloc: Global, words: &[&'static str]) -> Result<Vec<Text>, AllocError> {
    let mut texts = Vec::new(alloc);
    for word in words {
        texts.push(text(alloc, word)?)?;
    }
    Ok(texts)
}

/// The tags of a job, those of a runner, whether the runner runs untagged jobs, and whether it may be given the job.
const TAGS: &[(&[&'static str], &[&'static str], bool, bool)] = &[
    (&["linux", "arm"], &["linux"], true, false),
    (&["linux", "arm"], &["arm", "linux", "x"], false, true),
    (&["linux"], &[], true, false),
    (&[], &["arm"], false, false),
    (&[], &["arm"], true, true),
];

#[test]
fn who_has_the_tags(rt: HostRuntime) -> Result<(), Fail> {
    let alloc = rt.alloc();
    for (asked, own, untagged, given) in TAGS {
        let mut runner = runner(alloc, None, false)?;
        runner.tags = Texts::new(texts(alloc, own)?);
        runner.untagged = *untagged;
        let tags = texts(alloc, asked)?;
        assert!(rt; may_run(&runner, 1, tags.as_slice()) == *given);
    }
    Ok(())
}

/// An attempt that is made of a job in this resource group, if it is one, of a project.
pub fn made_of(
    alloc: Global,
    id: u64,
    project: u64,
    group: Option<&'static str>,
    state: AttemptState,
) -> Result<AttemptWithJob, Fail> {
    let queued = grouped(alloc, 3, project, group)?;
    let attempt = attempt(alloc, id, 1050, state)?;
    Ok(AttemptWithJob { attempt, queued })
}

/// A job in this resource group, if it is one, of a project.
pub fn grouped(
    alloc: Global,
    id: u64,
    project: u64,
    group: Option<&'static str>,
) -> Result<QueuedJob, AllocError> {
    let mut queued = queued(alloc, id, project)?;
    queued.job.options.resource_group = match group {
        Some(group) => Some(text(alloc, group)?),
        None => None,
    };
    Ok(queued)
}

/// The project and the resource group of a job, and whether it is free while an attempt holds `prod` of project 1.
const GROUPS: &[(u64, Option<&'static str>, bool)] = &[
    (1, Some("prod"), false),
    (1, Some("test"), true),
    (2, Some("prod"), true),
    (1, None, true),
];

#[test]
fn which_group_is_free(rt: HostRuntime) -> Result<(), Fail> {
    let alloc = rt.alloc();
    let runner = runner(alloc, None, false)?;
    let group = text(alloc, "prod")?;
    let claims = &[Claim { project: 1, group }];
    let live = &[
        made_of(alloc, 6, 1, None, AttemptState::Live)?,
        made_of(alloc, 7, 1, Some("prod"), AttemptState::Live)?,
    ];
    for (project, group, free) in GROUPS {
        let queue = &[grouped(alloc, 3, *project, *group)?];
        let [queued] = queue;
        let group = &queued.job.options.resource_group;
        assert!(rt; is_free(claims, *project, group) == *free);
        assert!(rt; resource_free(queued, live, &[], &[]) == *free);
        assert!(rt; is_eligible(queued, live, &[], &[], &runner) == *free);
        assert!(rt; choose(queue, live, &[], &[], &runner).is_some() == *free);
    }
    Ok(())
}

fn pipeline(alloc: Global, id: u64, git_ref: &str, kind: RefKind) -> Result<Pipeline, Fail> {
    Ok(Pipeline {
        id,
        project: 1,
        git_ref: text(alloc, git_ref)?,
        kind,
        source: Source::Api,
        created: at(1000)?,
    })
}

/// A pipeline's number, its ref, whether that is a branch or a tag, its status, and whether it is redundant among the others.
const PIPELINES: &[(u64, &'static str, RefKind, Status, bool)] = &[
    (1, "main", RefKind::Tag, Status::Pending, false),
    (2, "main", RefKind::Branch, Status::Success, false),
    (3, "main", RefKind::Branch, Status::Running, true),
    (4, "main", RefKind::Branch, Status::Manual, true),
    (5, "main", RefKind::Branch, Status::Pending, false),
    (6, "next", RefKind::Branch, Status::Pending, false),
];

#[test]
fn which_pipeline_is_redundant(rt: HostRuntime) -> Result<(), Fail> {
    let alloc = rt.alloc();
    let mut all = Vec::new(alloc);
    for (id, git_ref, kind, status, _) in PIPELINES {
        all.push(PipelineWithStatus {
            pipeline: pipeline(alloc, *id, git_ref, *kind)?,
            status: *status,
        })?;
    }
    for (one, (id, _, _, _, redundant)) in all.iter().zip(PIPELINES) {
        assert!(rt;
            is_redundant(one, all.as_slice(), &[]) == *redundant,
            "{id}"
        );
    }
    let found = redundant(all.as_slice(), &[]).ok_or("none")?;
    assert!(rt; found.pipeline.id == 3);
    Ok(())
}

/// Whether the job of a pipeline that was tried is interruptible, and the number of the redundant pipeline of the two of a ref, or 0.
const TRIED: &[(bool, u64)] = &[(true, 1), (false, 0)];

#[test]
fn what_was_tried_keeps_a_pipeline(rt: HostRuntime) -> Result<(), Fail> {
    let alloc = rt.alloc();
    let mut all = Vec::new(alloc);
    for id in 1..3 {
        let pipeline = pipeline(alloc, id, "main", RefKind::Branch)?;
        let status = Status::Running;
        all.push(PipelineWithStatus { pipeline, status })?;
    }
    let older = pipeline(alloc, 1, "main", RefKind::Branch)?;
    let newer = pipeline(alloc, 2, "main", RefKind::Branch)?;
    assert!(rt; is_newer_of(&older, &newer) && !is_newer_of(&newer, &older));
    assert!(rt; is_unfinished(Status::Manual) && !is_unfinished(Status::Skipped));
    for (interruptible, number) in TRIED {
        let mut tried = made_of(alloc, 4, 1, None, AttemptState::Cancelled)?;
        tried.queued.job.options.interruptible = *interruptible;
        assert!(rt; is_bound_to(&older, &tried.queued.job) != *interruptible);
        let found = match redundant(all.as_slice(), &[tried]) {
            Some(one) => one.pipeline.id,
            None => 0,
        };
        assert!(rt; found == *number);
    }
    Ok(())
}

#[test]
fn a_plain_job(rt: HostRuntime) -> Result<(), Fail> {
    let alloc = rt.alloc();
    let options = JobOptions::plain(alloc, Texts::new(Vec::new(alloc)));
    assert!(rt; options.timeout == 3600 && options.tags.as_slice().is_empty());
    assert!(rt; options.resource_group.is_none() && !options.interruptible);
    assert!(rt; options.part.retry.max == 0 && !options.part.gives_needs);
    Ok(())
}

#[test]
fn texts_and_moments(rt: HostRuntime) -> Result<(), Fail> {
    let alloc = rt.alloc();
    let main = Text::new(String::from_str(alloc, "main")?);
    let other = main.clone()?;
    assert!(rt; main.is_same(&other) && main.is_name() && !main.is_before(&other));
    assert!(rt; text(alloc, "maim")?.is_before(&main) && main.as_str() == "main");
    let mut texts = Vec::new(alloc);
    texts.push(other)?;
    assert!(rt; Texts::new(texts).as_slice().len() == 1);
    assert!(rt; Moment::new(253_402_300_799).is_some() && Moment::new(253_402_300_800).is_none());
    assert!(rt; Source::Trigger.as_str() == "trigger");
    let line = Detail::Line(FaultCode::Y(5), 3).text(alloc)?;
    assert!(rt; line.as_str() == "Y5 line 3");
    Ok(())
}

#[test]
fn changes_and_replies(rt: HostRuntime) -> Result<(), Fail> {
    let alloc = rt.alloc();
    let mut changes = Vec::new(alloc);
    changes.push(RowChange::Put(Record::Next(Counter::Job, 2)))?;
    let changes = Changes::new(changes);
    assert!(rt; !changes.is_empty() && changes.as_slice().len() == 1);
    assert!(rt; changes.into_vec().len() == 1);
    let mut reply = Reply::refusal(Code::M4);
    assert!(rt;
        reply.status == HttpStatus::Forbidden && reply.body() == b"{\"code\":\"M4\"}".as_slice()
    );
    reply.body = Some(Body::Plain(Bytes::new(Vec::from_slice(alloc, b"hi")?)));
    assert!(rt; reply.body() == b"hi".as_slice());
    Ok(())
}

/// A job in the group `disk`.
fn grouped_job(alloc: Global) -> Result<Job, AllocError> {
    let mut options = JobOptions::plain(alloc, Texts::new(Vec::new(alloc)));
    options.resource_group = Some(text(alloc, "disk")?);
    Ok(Job {
        id: 1,
        pipeline: 1,
        position: 0,
        name: text(alloc, "slow")?,
        stage: text(alloc, "test")?,
        options,
        played: false,
        cancelled: false,
        set_aside: 0,
    })
}

#[test]
fn a_claimed_group_is_waited_for(rt: HostRuntime) -> Result<(), Fail> {
    let job = grouped_job(rt.alloc())?;
    let claim = Claim {
        project: 1,
        group: text(rt.alloc(), "disk")?,
    };
    let claims = [claim];
    let waits = ShownStatus::of(&claims, 1, &job, Status::Pending);
    assert!(rt; waits.as_str() == "waiting_for_resource");
    let elsewhere = ShownStatus::of(&claims, 2, &job, Status::Pending);
    assert!(rt; elsewhere.as_str() == "pending");
    let ended = ShownStatus::of(&claims, 1, &job, Status::Canceled);
    assert!(rt; ended.as_str() == "canceled");
    Ok(())
}
