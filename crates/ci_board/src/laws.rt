//! Laws of the rows.

ghost use Rattle.std.specs.Prelude.{◌≡◌, ◌↔◌, ◌<◌, ℕ, List, length, slice_set, true};
ghost use Rattle.ci_board.specs.declared.facts.Facts.{Facts};
ghost use Rattle.ci_board.specs.declared.facts.Row.{Row};
ghost use Rattle.ci_board.specs.declared.facts.Status.{Status};
ghost use Rattle.ci_board.specs.declared.facts.Status.TheVariants as status;
ghost use Rattle.ci_board.specs.Standing.{is_live};
ghost use Rattle.ci_graph.specs.JobGraph.{JobGraph, IsJobGraph};
ghost use Rattle.ci_board.specs.Rows.{AreRows, IsAnswer, facts_at, row_at, same_row, differing};
ghost use Rattle.ci_board.specs.Statuses.{IsAssignment, HaveAssignment};

/// The rows of the same facts are the same.
pub fn one_list_of_rows()
    ensures { (g : JobGraph) → IsJobGraph g → (facts : List Facts) (r s : List Row) → AreRows g facts r → AreRows g facts s → (i : ℕ) → i < length g.parts → row_at r i ≡ row_at s i }
{}

/// Rows are right exactly where they are those of some assignment.
pub fn rows_are_assigned()
    ensures { (g : JobGraph) → IsJobGraph g → (facts : List Facts) (rows : List Row) → AreRows g facts rows ↔ ((a : ℕ → Status) × HaveAssignment g facts rows a) }
{}

/// There is an assignment, and only one.
pub fn one_assignment()
    ensures { (g : JobGraph) → IsJobGraph g → (facts : List Facts) → length facts ≡ length g.parts → ((rows : List Row) × AreRows g facts rows) × ((a b : ℕ → Status) → IsAssignment g facts a → IsAssignment g facts b → (i : ℕ) → i < length g.parts → a i ≡ b i) }
{}

/// The test of rows is equality.
pub fn same_rows()
    ensures { (a b : Row) → (same_row a b ≡ true) ↔ (a ≡ b) }
{}

/// What is answered is exact and ascending.
pub fn exact_answer()
    ensures { (olds rows : List Row) → length olds ≡ length rows → IsAnswer (differing 0 olds rows) olds rows }
{}

/// Of the graph, the rows depend on parts and predecessors alone.
pub fn rows_need_parts_and_predecessors()
    ensures { (g h : JobGraph) → h.parts ≡ g.parts → h.predecessors ≡ g.predecessors → (facts : List Facts) (rows : List Row) → AreRows g facts rows → AreRows h facts rows }
{}

/// A pending job that starts changes its own row alone, and of that the status.
pub fn start_changes_one_row()
    ensures { (g : JobGraph) (facts : List Facts) (rows : List Row) (j : ℕ) (fresh : Facts) → j < length facts → j < length rows
        → (row_at rows j).status ≡ status.Pending → is_live fresh.last ≡ true → AreRows g facts rows
        → AreRows g (slice_set facts j fresh) (slice_set rows j (record (row_at rows j) { status = status.Running })) }
{}
