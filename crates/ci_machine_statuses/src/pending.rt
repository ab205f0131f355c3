//! Single rows: of a job that is shown, and of one that is started.

ghost use Rattle.std.specs.Prelude.{◌≡◌};
ghost use Rattle.ci_board.specs.declared.facts.Status.TheVariants as status;
ghost use Rattle.ci_machine_steps.specs.Prelude.{row_or_none};

use ci_board::facts::{Row, Status};
use ci_machine::records::BoardRow;

/// The status that a job's row has; a job has always one.
pub fn status_of(row: Option<BoardRow>) -> Status
    ensures { result ≡ (row_or_none row).status }
{
    match row {
        Some(found) => found.row.status,
        None => Status::Created,
    }
}

/// The row of a pending job that is started.
pub fn started(row: BoardRow) -> BoardRow
    ensures { result ≡ record row { row = record row.row { status = status.Running } } }
{
    BoardRow {
        job: row.job,
        row: Row {
            status: Status::Running,
            opens: row.row.opens,
            failed: row.row.failed,
            barred: row.row.barred,
        },
    }
}
