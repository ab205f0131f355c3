//! The server of the witness, which granted a job, was closed and opened again: what it answers then.

use crate::server::acts::Act;
use crate::server::answers::{NO_JOB, Want, is};
use crate::server::servers::{InMemory, is_closed, let_go, tell};
use ci_machine::records::Cause;
use ci_machine::reply::JobStatus;
use ci_server_witness::life::granted_and_reopened;
use std::alloc::Global;
use std::process::Abort;
use std::test::Fail;

/// What follows a grant and a reopening: the one job runs, no other waits, and its lease ends 120 seconds after it.
const AFTER_LIFE: &[(u64, Act, Want)] = &[
    (1000, Act::Show, Want::Job(JobStatus::Running)),
    (1000, Act::AskJob, NO_JOB),
    (1119, Act::Sweep, Want::Nothing),
    (1120, Act::Sweep, Want::Ended(Cause::StuckOrTimeoutFailure)),
];

/// The server of the witness, if it comes.
fn lived(alloc: Global) -> Result<InMemory, Fail> {
    Ok(
        granted_and_reopened(alloc)
            .ok()
            .ok_or("it came to no grant")?,
    )
}

fn follow(rt: &impl Abort, alloc: Global, server: &mut InMemory) -> Result<(), Fail> {
    for (place, (seconds, act, want)) in AFTER_LIFE.iter().enumerate() {
        let answer = tell(alloc, server, *seconds, *act)?;
        assert!(rt; is(&answer, *want), "row {place}");
    }
    assert!(rt; !is_closed(server));
    Ok(())
}

#[test]
fn a_grant_outlives_a_closing(rt: HostRuntime) -> Result<(), Fail> {
    let alloc = rt.alloc();
    let mut server = lived(alloc)?;
    let followed = follow(&rt, alloc, &mut server);
    let_go(server);
    followed
}
