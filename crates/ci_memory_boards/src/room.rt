//! Room for one more pipeline among those that are remembered.

ghost use Rattle.std.specs.Prelude.{◌≡◌, ◌<◌, ◌≤◌, length};
ghost use Rattle.std.specs.List.{prefix_len};
ghost use Rattle.ci_memory_boards.specs.Room.{is_active, is_under_way, has_room, place_to_go, with_room};

use ci_board::facts::Status;
use ci_machine::records::BoardRow;
use ci_server_lookups::sheet::Sheet;

/// Of how many pipelines the records are remembered, at most. With one more that goes which was learned first of those that aren't under way;
/// where all are, the first of all.
pub const MAX_SHEETS: usize = 32;

/// Is there room for one more, or a pipeline that isn't under way?
pub(crate) fn has_room(sheets: &[Sheet]) -> bool
    ensures { result ≡ has_room sheets.now }
{
    sheets.len() < MAX_SHEETS || under_way_first(sheets) < sheets.len()
}

/// Leaves room for one more.
pub(crate) fn make_room(sheets: &mut Vec<Sheet>)
    ensures { sheets.new.items ≡ with_room sheets.old.items }
{
    if sheets.len() >= MAX_SHEETS {
        let place = place_to_go(sheets.as_slice());
        sheets.remove(place);
    }
}

/// The place of the first that isn't under way; where all are, of the first of all.
fn place_to_go(sheets: &[Sheet]) -> usize
    requires { 0 < length sheets.now }
    ensures place { result ≡ place_to_go sheets.now }
    ensures within { result < length sheets.now }
{
    let place = under_way_first(sheets);
    if place < sheets.len() { place } else { 0 }
}

/// How many from the first on are under way.
fn under_way_first(sheets: &[Sheet]) -> usize
    ensures len { result ≡ prefix_len is_under_way sheets.now }
    ensures within { result ≤ length sheets.now }
{
    sheets
        .iter()
        .take_while(|sheet| is_under_way(sheet))
        .count()
}

/// Is a job of the pipeline pending or running?
fn is_under_way(sheet: &Sheet) -> bool
    ensures { result ≡ is_under_way sheet.now }
{
    sheet.rows.iter().any(is_active)
}

fn is_active(row: &BoardRow) -> bool
    ensures { result ≡ is_active row.now.row.status }
{
    matches!(row.row.status, Status::Pending | Status::Running)
}
