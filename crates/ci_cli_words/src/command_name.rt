//! The names of the commands.

ghost use Rattle.std.specs.Prelude.{◌≡◌};
ghost use Rattle.ci_cli_words.specs.Words.{command_named};

use crate::command_line::{
    CHECK, EXPLAIN, INIT, MIGRATE, PLAN, PROJECT_ADD, PRUNE, REPORT, RUNNER_ADD, RUNNER_PAUSE,
    SERVE,
};

/// A command of the program.
#[derive(Clone, Copy)]
pub(crate) enum CommandName {
    Check,
    Explain,
    Plan,
    Init,
    Migrate,
    ProjectAdd,
    RunnerAdd,
    RunnerPause,
    Report,
    Prune,
    Serve,
}

/// The command of this name, if there is one.
pub(crate) fn command_named(text: &str) -> Option<CommandName>
    ensures { result ≡ command_named text.now }
{
    match text {
        CHECK => Some(CommandName::Check),
        EXPLAIN => Some(CommandName::Explain),
        PLAN => Some(CommandName::Plan),
        INIT => Some(CommandName::Init),
        MIGRATE => Some(CommandName::Migrate),
        PROJECT_ADD => Some(CommandName::ProjectAdd),
        RUNNER_ADD => Some(CommandName::RunnerAdd),
        RUNNER_PAUSE => Some(CommandName::RunnerPause),
        REPORT => Some(CommandName::Report),
        PRUNE => Some(CommandName::Prune),
        SERVE => Some(CommandName::Serve),
        _ => None,
    }
}
