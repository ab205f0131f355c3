//! Changes that a command of the program makes, one of each kind.

use crate::server::acts::{Act, SUCCESS};
use crate::server::answers::{Want, first};
use ci_machine::reply::HttpStatus;

/// An event that changes something.
#[derive(Clone, Copy)]
pub struct Row {
    pub name: &'static str,
    /// So many things of the first path happened before,
    pub path: usize,
    /// and these behind them, all at 1000.
    pub more: &'static [Act],
    pub act: Act,
    /// What it is answered, and what once more.
    pub first: Want,
    pub again: Want,
}

fn change(name: &'static str, path: usize, more: &'static [Act], act: Act, again: Want) -> Row {
    Row {
        name,
        path,
        more,
        act,
        first: first(act),
        again,
    }
}

fn made(body: &'static str) -> Want {
    Want::Done(HttpStatus::Created, body)
}

pub fn of_commands() -> [Row; 4] {
    let project = made("{\"id\":2,\"token\":\"p2-abababababababababababababababab\"}");
    let runner = made("{\"id\":2,\"token\":\"r2-abababababababababababababababab\"}");
    let pause = Act::Pause(true);
    let none = Want::Done(HttpStatus::NoContent, "");
    [
        change("a project is made", 0, &[], Act::AddProject("p"), project),
        change("a runner is made", 1, &[], Act::AddRunner("r"), runner),
        change("a runner is paused", 2, &[], pause, first(pause)),
        change(
            "a pipeline is pruned",
            5,
            &[SUCCESS],
            Act::Prune(1001),
            none,
        ),
    ]
}
