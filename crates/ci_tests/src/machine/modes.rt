//! A resource group is given a process mode, and is told with it.

use crate::machine::decisions::text;
use ci_machine::change::{Key, Record, RowChange};
use ci_machine::records::{GroupOrder, Project};
use ci_machine::reply::{Code, HttpStatus};
use ci_machine::request::NewMode;
use ci_machine_plans::modes::{set_mode, show_mode};
use std::alloc::{AllocError, Global};
use std::test::Fail;

fn project(alloc: Global) -> Result<Project, AllocError> {
    Ok(Project {
        id: 7,
        name: text(alloc, "shop")?,
        token: text(alloc, "p7")?,
        file: None,
    })
}

fn asked(alloc: Global, order: Option<GroupOrder>) -> Result<NewMode, AllocError> {
    Ok(NewMode {
        project: 7,
        token: text(alloc, "p7")?,
        group: text(alloc, "prod")?,
        order,
    })
}

/// Is the change that of the group `prod` of project 7, which has this order then?
fn is_of_prod(change: &RowChange, order: Option<GroupOrder>) -> bool {
    match (change, order) {
        (RowChange::Put(Record::Mode(mode)), Some(order)) => {
            mode.project == 7 && mode.group.as_str() == "prod" && mode.order == order
        }
        (RowChange::Remove(Key::Mode(project, group)), None) => {
            *project == 7 && group.as_str() == "prod"
        }
        _ => false,
    }
}

/// An order, and the body that tells `prod` with it.
const MODES: &[(Option<GroupOrder>, &'static str)] = &[
    (None, "{\"key\":\"prod\",\"process_mode\":\"unordered\"}"),
    (
        Some(GroupOrder::OldestFirst),
        "{\"key\":\"prod\",\"process_mode\":\"oldest_first\"}",
    ),
    (
        Some(GroupOrder::NewestReadyFirst),
        "{\"key\":\"prod\",\"process_mode\":\"newest_ready_first\"}",
    ),
];

#[test]
fn a_mode_is_set(rt: HostRuntime) -> Result<(), Fail> {
    let alloc = rt.alloc();
    let project = project(alloc)?;
    for (order, body) in MODES {
        let (reply, changes) = set_mode(alloc, Ok(&project), asked(alloc, *order)?)?;
        assert!(rt; reply.status == HttpStatus::Fine && reply.body() == body.as_bytes());
        let changes = changes.as_slice();
        assert!(rt; changes.len() == 1);
        assert!(rt; changes.iter().all(|change| is_of_prod(change, *order)));
    }
    Ok(())
}

#[test]
fn a_mode_is_told(rt: HostRuntime) -> Result<(), Fail> {
    let alloc = rt.alloc();
    let project = project(alloc)?;
    let group = text(alloc, "prod")?;
    for (order, body) in MODES {
        let (reply, changes) = show_mode(alloc, Ok(&project), *order, &group)?;
        assert!(rt; reply.status == HttpStatus::Fine && reply.body() == body.as_bytes());
        assert!(rt; changes.is_empty());
    }
    let (reply, _) = show_mode(alloc, Err(Code::M2), None, &group)?;
    assert!(rt; reply.body() == b"{\"code\":\"M2\"}".as_slice());
    Ok(())
}
